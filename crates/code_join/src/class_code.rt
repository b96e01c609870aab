// The code of a value in one class.
ghost use Rattle.std.specs.Prelude.{◌≡◌, ◌<◌, ◌↔◌, ℕ, Some, IfSome, length};
ghost use Rattle.order_codes.specs.Dictionary.{class_at, decoded};

use blink_base::Value;
use order_codes::Dict;
use word_pool::Ledger;

// The code of a value in a class: the one that decodes to it, where one does.
pub(crate) fn code_of<M: Ledger>(dict: &Dict<M>, class: u32, value: &Value) -> Option<u32>
    ensures code { (code : ℕ) → (decoded dict.now class code ≡ Some value.now) ↔ (result ≡ Some code) }
    ensures within { IfSome result (λ code. code < length (class_at dict.now class)) }
{
    match dict.find(value) {
        Some(place) if place.class == class => Some(place.code),
        _ => None,
    }
}
