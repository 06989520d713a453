//! What a job got, and what it gave back.

/// What a job got, and what it gave back.
#[derive(Clone, Copy)]
pub enum Transfer {
    /// The job got this element of this resource, or a permit, which has the number 0.
    Got { job: u32, at: u32, element: u32 },
    /// The job gave back the oldest that it held of this resource.
    GaveBack { job: u32, at: u32 },
}
