ghost use Rattle.std.specs.Prelude.{◌≡◌, ◌≤◌, true, take};
ghost use Rattle.caster_press.specs.Texts.{is_line};

/// How many bytes a line has at most, with the newline at its end.
pub const MAX_LINE_BYTES: usize = 512;

/// One line of an output, as plain data: up to 512 bytes, of which the last is the only newline.
///
/// The longest lines of a link that a caster tells of have fewer than 300: a link's number takes
/// 31, a name 100, an address 100, and a number 20.
#[derive(Clone, Copy)]
pub struct Line {
    pub(crate) bytes: [u8; MAX_LINE_BYTES],
    pub(crate) len: usize,
    ghost within: { len ≤ 512 },
    ghost whole: { is_line (take len bytes) ≡ true },
}

impl Line {
    ghost use Rattle.caster_press.specs.Lines.{text_of};

    /// Its bytes, with the newline.
    pub fn bytes(&self) -> &[u8]
        ensures { result.now ≡ text_of self.now }
    {
        &self.bytes[..self.len]
    }
}
