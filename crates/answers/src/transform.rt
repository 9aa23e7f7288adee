// Of the transformed rotations.
ghost use Rattle.std.specs.Prelude.{◌≡◌};
ghost use Rattle.answers.specs.Transforms.{transform_lengths};

pub fn transform_lengths(d: usize, q: usize) -> bool
    ensures { result ≡ transform_lengths d q }
{
    d == 3 && q == 9
}
