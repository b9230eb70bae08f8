//! Laws of the definitions.
ghost use Rattle.std.specs.Prelude.{◌≡◌, ◌↔◌, ◌++◌, List, length, true, Ok};
ghost use Rattle.sql_bound.specs.declared.tree.Bound.{Bound};
ghost use Rattle.sql_bound.specs.declared.tree.BoundAgg.{BoundAgg};
ghost use Rattle.sql_bound.specs.declared.tree.BoundAgg.TheVariants.{Sum, Min, Max, Avg};
ghost use Rattle.sql_value.specs.declared.value.Value.{Value};
ghost use Rattle.sql_totals.specs.Partials.{Partial, Summed, Averaged, Least, Greatest, start};
ghost use Rattle.sql_totals.specs.Exact.{numbers, exact_sum};
ghost use Rattle.sql_totals.specs.declared.keeping.Extreme.TheVariants as extreme;
ghost use Rattle.sql_totals.specs.Stepped.{is_there};
ghost use Rattle.sql_totals.specs.Extremes.{are_of_one_kind, IsExtreme};
ghost use Rattle.sql_totals.specs.Merging.{can_be_merged, merged, MergesTo};
ghost use Rattle.sql_totals.specs.Overall.{and_on, added_all, added_to_one, each_by_itself, values, total_of};

/// Rows in two parts: the second part is added to the totals of the first.
pub fn rows_in_parts()
    ensures { (aggs : List BoundAgg) (first second : List (List Value)) (ts : List Partial)
        → added_all aggs (first ++ second) ts ≡ and_on (added_all aggs first ts) (added_all aggs second) }
{}

/// Where no row has a fault, the totals of a list of aggregates are those of each aggregate by itself.
pub fn totals_of_rows()
    ensures { (aggs : List BoundAgg) (rows : List (List Value)) (ts us : List Partial)
        → (added_all aggs rows ts ≡ Ok us) ↔ (each_by_itself aggs rows ts ≡ Ok us) }
{}

/// Where no row has a fault, a total is what the aggregate makes of the values that count: their number, `+` in order from the first value
/// on, or the value that none precedes as each next one is compared with the one that is kept.
pub fn totals_of_values()
    ensures value { (a : BoundAgg) (rows : List (List Value)) (t : Partial)
        → added_to_one a rows (start a) ≡ Ok t → total_of a (values a rows) ≡ Ok t }
    ensures parts { (a : BoundAgg) (first second : List (List Value))
        → values a (first ++ second) ≡ values a first ++ values a second }
{}

/// Where no row has a fault, SUM is the sum of the numbers that the values are, as fractions and with the largest scale, and an Int where
/// all are Ints. AVG has that sum, and how many there are.
pub fn sums_are_exact()
    ensures sum { (e : Bound) (rows : List (List Value)) (t : Partial)
        → added_to_one (Sum e) rows (start (Sum e)) ≡ Ok t
        → t ≡ Summed (exact_sum (numbers (values (Sum e) rows))) }
    ensures average { (e : Bound) (rows : List (List Value)) (t : Partial)
        → added_to_one (Avg e) rows (start (Avg e)) ≡ Ok t
        → t ≡ Averaged (exact_sum (numbers (values (Avg e) rows))) (length (values (Avg e) rows)) }
{}

/// Rows in two parts, where neither has a fault nor both together: the total of all is that of the first merged with that of the second.
/// The values before MIN and MAX are of one kind, all numbers, all texts, all timestamps or all truth values.
pub fn totals_of_parts()
    ensures { (a : BoundAgg) (first second : List (List Value)) (t u w : Partial)
        → can_be_merged a (values a (first ++ second)) ≡ true
        → added_to_one a first (start a) ≡ Ok t → added_to_one a second (start a) ≡ Ok u
        → added_to_one a (first ++ second) (start a) ≡ Ok w → MergesTo a (merged t u) w }
{}

/// Where no row has a fault and the values are of one kind, all numbers, all texts, all timestamps or all truth values, what MIN or MAX
/// keeps, if it is any, is one of them, and none precedes it.
pub fn extremes_are_among_values()
    ensures min { (e : Bound) (rows : List (List Value)) (k : Value)
        → are_of_one_kind (values (Min e) rows) ≡ true → is_there k ≡ true
        → added_to_one (Min e) rows (start (Min e)) ≡ Ok (Least k)
        → IsExtreme extreme.Least k (values (Min e) rows) }
    ensures max { (e : Bound) (rows : List (List Value)) (k : Value)
        → are_of_one_kind (values (Max e) rows) ≡ true → is_there k ≡ true
        → added_to_one (Max e) rows (start (Max e)) ≡ Ok (Greatest k)
        → IsExtreme extreme.Greatest k (values (Max e) rows) }
{}
