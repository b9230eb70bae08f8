//! The law of texts: a function with an empty body, whose contract is the law.
ghost use Rattle.json_text.specs.Nodes.{EachTextIsTold};

/// Which bytes are a JSON text, and of which value, is a function of the bytes.
pub fn text_is_told_by_a_function()
    ensures { EachTextIsTold }
{}
