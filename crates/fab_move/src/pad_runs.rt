//! Runs of positions, one on each side of the array.

ghost use Rattle.std.specs.Prelude.{◌+◌, ◌≤◌};

/// The `count` whole numbers from `first` on.
#[derive(Clone, Copy)]
pub(crate) struct Run {
    pub(crate) first: u16,
    pub(crate) count: u16,
    ghost bound: { first + count ≤ 1001 },
}

/// The pad positions near a site: one run for each side, in perimeter order.
#[derive(Clone, Copy)]
pub(crate) struct Window {
    pub(crate) nx: u16,
    pub(crate) ny: u16,
    pub(crate) left: Run,
    pub(crate) top: Run,
    pub(crate) right: Run,
    pub(crate) bottom: Run,
    ghost columns: { nx ≤ 1000 },
    ghost rows: { ny ≤ 1000 },
}
