//! Who is told what is waited for.

/// Is told what is waited for, before it is, so that somebody else can say so where it takes long.
pub trait Notices {
    /// The file with this name is being opened, which of a pipe takes until its other end is.
    fn opens(&mut self, name: &str);

    /// Tables are sought in the input with this number, of this name, whose PAT was found or not.
    fn seeks(&mut self, number: usize, name: &str, has_pat: bool);

    /// Nothing is waited for any more.
    fn goes_on(&mut self);
}

/// Says nothing.
#[derive(Clone, Copy)]
pub struct NoNotices;

impl Notices for NoNotices {
    fn opens(&mut self, _name: &str) {}

    fn seeks(&mut self, _number: usize, _name: &str, _has_pat: bool) {}

    fn goes_on(&mut self) {}
}
