// Where values stand in a class.
ghost use Rattle.std.specs.Prelude.{◌≡◌, ◌<◌, IfSome, length};
ghost use Rattle.std.specs.Ordering.{is_le, is_lt};
ghost use Rattle.blink_base.specs.Values.{value_cmp};
ghost use Rattle.order_codes.specs.Dictionary.{below, class_at};
ghost use Rattle.cell_predicates.specs.Cuts.{IsCut, IsCodeOf};

use blink_base::Value;
use order_codes::Dict;
use word_pool::Ledger;

// How many values of a class are below a value: they are the first so many.
pub(crate) fn lesser<M: Ledger>(dict: &Dict<M>, class: u32, value: &Value) -> u32
    requires { class < length dict.now }
    ensures cut { IsCut (class_at dict.now class) (λ v. is_lt (value_cmp v value.now)) result }
    ensures below { result ≡ below (class_at dict.now class) value.now }
{
    let _classes = dict.classes();
    dict.below(class, value)
}

// How many values of a class are below a value or equal to it: they are the first so many.
pub(crate) fn not_greater<M: Ledger>(dict: &Dict<M>, class: u32, value: &Value) -> u32
    requires { class < length dict.now }
    ensures { IsCut (class_at dict.now class) (λ v. is_le (value_cmp v value.now)) result }
{
    let _size = dict.size(class);
    let low = lesser(dict, class, value);
    match code_of(dict, class, value) {
        Some(code) => code + 1,
        None => low,
    }
}

// The code of a value in a class, if it is there.
pub(crate) fn code_of<M: Ledger>(dict: &Dict<M>, class: u32, value: &Value) -> Option<u32>
    requires { class < length dict.now }
    ensures code { IsCodeOf (class_at dict.now class) value.now result }
    ensures within { IfSome result (λ code. code < length (class_at dict.now class)) }
    ensures below { IfSome result (λ code. code ≡ below (class_at dict.now class) value.now) }
{
    match dict.find(value) {
        Some(place) if place.class == class => Some(place.code),
        _ => None,
    }
}
