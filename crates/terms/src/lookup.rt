// What a number names in a list.
ghost use Rattle.std.specs.Prelude.{◌≡◌, slice_index_or};

// The item of that number, or what stands for one that is not there.
pub fn item_or<T: Copy>(items: &[T], number: u8, other: T) -> T
    ensures { result ≡ slice_index_or items.now number other }
{
    items.get(usize::from(number)).copied().unwrap_or(other)
}
