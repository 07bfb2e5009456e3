// The book that holds rules that want unequal options.
use books::two_book::TwoBook;
use terms::scope::Scope;

// Each rule is its two questions.
pub type DifferBook<'a> = TwoBook<'a, Scope>;
