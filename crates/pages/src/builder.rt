ghost use Rattle.std.specs.Prelude.{◌≡◌, ◌+◌, ◌*◌, ◌≤◌, sum};
ghost use Rattle.arrayvec.specs.ArrayVec.{array_vec_len};

use arrayvec::ArrayVec;

// Gathers the records of a page. Where they stand in it is known only once their count is, so that they are kept
// aside without gaps.
#[derive(Drop)]
pub struct PageBuilder {
    // the bytes of the page
    pub(crate) size: usize,
    // how long each record is
    pub(crate) lens: ArrayVec<u16, 1024>,
    // their bytes, one record after another
    pub(crate) bytes: ArrayVec<u8, 4096>,
    ghost fits: { 4 + 4 * array_vec_len lens + array_vec_len bytes ≤ size },
    ghost small: { size ≤ 4096 },
    ghost summed: { sum lens.items ≡ array_vec_len bytes },
}
