// Places of a table. They stand apart from places.rt, whose contracts cite a view of them.
ghost use Rattle.std.specs.Prelude.{◌+◌, ◌<◌};

// Of an image or of a point.
#[derive(Clone, Copy)]
pub struct Place {
    pub at: usize,
    ghost fits: { at < 9223372036854775808 },
}

// Of the images of a point: the first, and the others from `others` on, `count` in all.
#[derive(Clone, Copy)]
pub struct Places {
    pub first: Place,
    pub others: usize,
    pub count: usize,
    ghost fits: { others + count < 2199023321089 },
}
