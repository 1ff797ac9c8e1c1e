// Memory that lines fill.
ghost use Rattle.std.specs.Prelude.{◌≡◌, is_some, nat_lt, length};
ghost use Rattle.std.proofs.Common.{set};

// Puts a value at a place; none where there is no such place. `put` of reader_lines takes a usize and says nothing: it is of the product, whose
// columns are all there.
pub fn put<T: Copy>(slots: &mut [T], place: u64, value: T) -> Option<()>
    ensures known { is_some result ≡ nat_lt place (length slots.old) }
    ensures slots_after { slots.new ≡ set slots.old place value }
{
    if slots.len() as u64 <= place {
        return None;
    }
    slots[place as usize] = value;
    Some(())
}
