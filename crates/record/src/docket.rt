// The problem alone, without what has been deduced.
ghost use Rattle.std.specs.Prelude.{◌≡◌, ◌^◌, ◌<◌, ◌≤◌, length};
ghost use Rattle.record.specs.Sound.{Large, Small, Past, Picked};

// Question count, sizes, picks and placed rules (bit r is rule r). It is made only in this crate, so it is always well formed:
// 1 to 16 questions of 1 to 32 options, and each pick among its question's options. It is copied out of a sheet by value,
// without a heap, so its sizes and picks are arrays of sixteen with the count beside.
#[derive(Clone, Copy)]
pub struct Docket {
    pub(crate) count: u8,
    pub(crate) sizes: [u8; 16],
    pub(crate) picks: [Option<u8>; 16],
    pub(crate) placed: u64,
    ghost sixteen: { length sizes ≡ 16 },
    ghost slots: { length picks ≡ 16 },
    ghost bits: { placed < 2 ^ 64 },
    ghost some: { 1 ≤ count },
    ghost few: { count ≤ 16 },
    ghost large: { Large count sizes },
    ghost small: { Small sizes },
    ghost past: { Past count sizes },
    ghost picked: { Picked sizes picks },
}
