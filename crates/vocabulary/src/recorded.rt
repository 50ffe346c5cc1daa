// A line of a recording, as the archive has it: the second that its sample was taken at, in range or not, and the sample.
use crate::sample::Sample;

#[derive(Clone, Copy, Debug, PartialEq, Eq)]
pub struct Recorded {
    pub second: i32,
    pub sample: Sample,
}
