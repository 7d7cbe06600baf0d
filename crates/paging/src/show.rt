ghost use Rattle.std.specs.Prelude.{◌≡◌, ℕ, false, List, length, is_ok, None, Ok};
ghost use Rattle.pages.specs.Gathered.{answer_of};
ghost use Rattle.pages.specs.Pages.{shown, is_end, paged};
ghost use Rattle.index.specs.Stored.{Stored};
ghost use Rattle.paging.specs.Refusals.{is_bookmark, misasked, faulted};

use crate::blocks::read_header;
use crate::gather::gather;
use crate::refusal::PageError;
use device::Device;
use kinds::KeyKind;
use pages::{PageAnswer, PageBuilder};

fn is_bookmark<K: KeyKind>(bookmark: &[u8]) -> bool
    ensures { result ≡ is_bookmark K.KeyKind.kind bookmark.now }
{
    bookmark.is_empty() || K::is_lawful(bookmark)
}

// The page after a bookmark of the index whose header is the block `head`. A refusal leaves the buffer.
pub fn page<D: Device, K: KeyKind>(
    device: &D,
    head: u16,
    bookmark: &[u8],
    buffer: &mut [u8],
) -> Result<PageAnswer, PageError>
    ensures fault { faulted result ≡ misasked K.KeyKind.kind bookmark.now (length buffer.old) }
    ensures left { is_ok result ≡ false → buffer.new ≡ buffer.old }
    ensures answer { (rs : List (List ℕ)) → Stored K.KeyKind.kind (D.Device.contents device.now) head rs → misasked K.KeyKind.kind bookmark.now (length buffer.old) ≡ None → result ≡ Ok (answer_of (shown K.KeyKind.kind bookmark.now (length buffer.old) rs) (is_end K.KeyKind.kind bookmark.now (length buffer.old) rs)) }
    ensures bytes { (rs : List (List ℕ)) → Stored K.KeyKind.kind (D.Device.contents device.now) head rs → misasked K.KeyKind.kind bookmark.now (length buffer.old) ≡ None → buffer.new ≡ paged K.KeyKind.kind bookmark.now rs buffer.old }
{
    let mut builder = PageBuilder::new(buffer.len()).ok_or(PageError::Buffer)?;
    if !is_bookmark::<K>(bookmark) {
        return Err(PageError::Bookmark);
    }
    let header = read_header(device, head)?;
    let end = gather::<D, K>(device, &header, bookmark, &mut builder)?;
    builder.finish(end, buffer).ok_or(PageError::Broken)
}
