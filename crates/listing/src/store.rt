// The listing of a store.
ghost use Rattle.std.specs.Prelude.{◌≡◌, length};
ghost use Rattle.listing.specs.Listing.{list_on, list_outcome};
ghost use Rattle.listing.specs.Written.{ListedFits};

use crate::sets::list_set;
use crate::text::Writer;
use formed::well_formed;

// Why a listing does not stand in the buffer: with TooSmall, how many bytes the buffer needs.
#[derive(Clone, Copy)]
pub enum ListError {
    NotWellFormed,
    TooSmall(usize),
}

// The listing of the store in tables t, whose pages are n bytes, from the buffer's front on: how many bytes stand in it.
pub fn list_store(t: &[u8], n: usize, out: &mut [u8]) -> Result<usize, ListError>
    ensures { (list_outcome result out.new ≡ list_on t.now n out.old) × ListedFits (length out.new) result }
{
    if !well_formed(t, n) {
        return Err(ListError::NotWellFormed);
    }
    let mut w = Writer::new(out);
    let _ = list_set(t, 0, &mut w, 8);
    let wanted = w.at;
    if out.len() < wanted {
        return Err(ListError::TooSmall(wanted));
    }
    Ok(wanted)
}
