// First parts of slices and what follows them, as far as there are places.
ghost use Rattle.std.specs.Prelude.{◌≡◌, take, drop};
ghost use Rattle.records.specs.Counts.{Counts};

// How many of the first n places there are.
pub fn within<T>(n: usize, values: &[T]) -> usize
    ensures { Counts n result values.now }
{
    n.min(values.len())
}

// The first n places.
pub fn first<T>(n: usize, values: &[T]) -> &[T]
    ensures { result.now ≡ take n values.now }
{
    &values[..within(n, values)]
}

// The places after the first n.
pub fn rest<T>(n: usize, values: &[T]) -> &[T]
    ensures { result.now ≡ drop n values.now }
{
    &values[within(n, values)..]
}
