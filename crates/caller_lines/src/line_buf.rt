use arrayvec::ArrayVec;

/// The bytes of one line of a caller, 512 at most.
pub type LineBuf = ArrayVec<u8, 512>;
