// The first n places of a slice, or all where there are fewer.
ghost use Rattle.std.specs.Prelude.{◌≡◌, take};

pub fn first<'a, T>(xs: &'a [T], n: usize) -> &'a [T]
    ensures { result.now ≡ take n xs.now }
{
    &xs[..n.min(xs.len())]
}
