//! The laws of fields and records: functions with an empty body, whose contracts are the laws.
ghost use Rattle.csv_cutter.specs.Fields.{EachLineHasFields, FieldsAreOne};
ghost use Rattle.csv_cutter.specs.Reading.{EachLineIsReadSo};
ghost use Rattle.csv_cutter.specs.Cuttings.{EachObjectIsCutSo};
ghost use Rattle.csv_cutter.specs.Records.{EachObjectHasRecords, RecordsAreOne};

/// Each line has fields in a valid dialect, and no others.
pub fn line_has_one_reading()
    ensures some { EachLineHasFields }
    ensures one { FieldsAreOne }
{}

/// What reading a line gives in a valid dialect is a function of the line's bytes.
pub fn line_is_read_by_a_function()
    ensures { EachLineIsReadSo }
{}

/// Each object has records in a valid dialect, and no others.
pub fn object_has_one_cutting()
    ensures some { EachObjectHasRecords }
    ensures one { RecordsAreOne }
{}

/// The records of an object in a valid dialect are a function of its bytes.
pub fn object_is_cut_by_a_function()
    ensures { EachObjectIsCutSo }
{}
