/// Writes units from a place on, as far as there is room, and answers whether there was for all.
pub(crate) fn put(bytes: &mut [u8; 2048], place: usize, units: &[u32]) -> bool {
    let mut at = place;
    for unit in units {
        if at > 2044 {
            return false;
        }
        bytes[at..at + 4].copy_from_slice(&unit.to_be_bytes());
        at += 4;
    }
    true
}
