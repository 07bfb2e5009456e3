// Sets of options as 32-bit masks: bit o is option o.
ghost use Rattle.std.specs.Prelude.{◌≡◌, slice_index};
ghost use Rattle.terms.specs.Masks.{has, with, without, less, within, declared, declared_each, held, less_each, within_each, with_rule};

use crate::lookup::item_or;
use std::array;

// Whether the mask holds the option; no mask holds a number above 31.
pub fn has(mask: u32, option: u8) -> bool
    ensures { result ≡ has mask option }
{
    option < 32 && (mask >> option) & 1 == 1
}

// The mask with the option put in; a number above 31 changes nothing.
pub fn with(mask: u32, option: u8) -> u32
    ensures { result ≡ with mask option }
{
    if option < 32 {
        mask | (1 << option)
    } else {
        mask
    }
}

// The mask with the option taken out.
pub fn without(mask: u32, option: u8) -> u32
    ensures { result ≡ without mask option }
{
    if option < 32 {
        mask & !(1 << option)
    } else {
        mask
    }
}

// What `mask` holds and `other` does not.
pub fn less(mask: u32, other: u32) -> u32
    ensures { result ≡ less mask other }
{
    mask & !other
}

// Whether everything in `mask` is in `other`.
pub fn within(mask: u32, other: u32) -> bool
    ensures { result ≡ within mask other }
{
    less(mask, other) == 0
}

// The options below a size; a size above 32 counts as 32.
pub fn declared(size: u8) -> u32
    ensures { result ≡ declared size }
{
    if size < 32 { (1 << size) - 1 } else { u32::MAX }
}

// How many options the mask holds.
pub fn held(mask: u32) -> u32
    ensures { result ≡ held mask }
{
    mask.count_ones()
}

// The declared masks of a sheet: those of the first `count` sizes, and 0 past the last question.
pub fn declared_each(count: u8, sizes: [u8; 16]) -> [u32; 16]
    ensures { result ≡ declared_each count sizes }
{
    array::from_fn(|q| if q < usize::from(count) {
        declared(sizes[q])
    } else {
        0
    })
}

// The mask of a question; nothing past the last of the sixteen.
pub fn mask_of(masks: [u32; 16], question: u8) -> u32
    ensures { result ≡ slice_index masks question }
{
    item_or(&masks, question, 0)
}

// What the masks of a sheet hold and the others do not, question by question.
pub fn less_each(masks: [u32; 16], others: [u32; 16]) -> [u32; 16]
    ensures { result ≡ less_each masks others }
{
    array::from_fn(|q| less(masks[q], others[q]))
}

// Whether the four masks of a rule lie within four others.
pub fn within_each(masks: [u32; 4], others: [u32; 4]) -> bool
    ensures { result ≡ within_each masks others }
{
    masks
        .iter()
        .zip(others.iter())
        .all(|(mask, other)| within(*mask, *other))
}

// Whether a set of rules holds the rule: bit r is rule r.
// A trait over the words of 32 and of 64 bits would say `has` and `with` once more in each impl, so they stay apart.
pub fn has_rule(rules: u64, rule: u8) -> bool
    ensures { result ≡ has rules rule }
{
    rule < 64 && (rules >> rule) & 1 == 1
}

// The set with the rule put in; a number above 63 changes nothing.
pub fn with_rule(rules: u64, rule: u8) -> u64
    ensures { result ≡ with_rule rules rule }
{
    if rule < 64 {
        rules | (1 << rule)
    } else {
        rules
    }
}
