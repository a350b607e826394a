// What came of a line so far. (A file of its own: what a ghost field names comes with the whole file's imports, and specs/Input speaks of these types.)
ghost use Rattle.std.specs.Prelude.{◌≤◌};
ghost use Rattle.printing.specs.Given.{line_room};

// So many bytes of a line, which the buffer holds.
#[derive(Clone, Copy)]
pub struct Length {
    pub bytes: usize,
    ghost in_room: { bytes ≤ line_room },
}

// What came of a line so far: bytes, or more of them than the buffer holds. (No Option: its None would read as no line, where one is there that is too long.)
#[derive(Clone, Copy)]
pub enum SoFar {
    Whole(Length),
    TooLong,
}
