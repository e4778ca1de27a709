// Stretches of bytes, one after the other in one store, behind a table that tells for each slot where its stretch begins and how long it is: see
// specs/Store.antt. A stretch is as long as what it was asked for, so that short things take little room. Places and lengths are counted in units
// of eight bytes, so that sixteen bits hold them. Where no room is left, all stretches are given up.
#![tactic(auto)]

ghost use Rattle.std.specs.Prelude.{◌≡◌, ◌+◌, ◌*◌, ◌<◌, ◌≤◌, length};
ghost use Rattle.search_line_store.specs.Store.{line_store_bound, short_at, units_of, table_end, begin_of, Stretches, ShortPut, GivenUp, Claimed, Free};

// The bytes of a unit.
pub const UNIT: usize = 8;

// The bytes of a slot in the table: its stretch's place and its length.
pub const SLOT_BYTES: usize = 4;

// The bytes between the slots and the first stretch: two of them hold how many units are used.
pub const TABLE_REST: usize = UNIT;

// The number that two bytes hold.
fn short_at(bytes: &[u8], at: usize) -> usize
    requires { (at + 2 ≤ length bytes.now) × (length bytes.now ≤ line_store_bound) }
    ensures { (result ≡ short_at bytes.now at) × (result < 65536) }
{
    usize::from(bytes[at]) + usize::from(bytes[at + 1]) * 256
}

// Puts a number into two bytes.
fn put_short(bytes: &mut [u8], at: usize, number: usize)
    requires { (at + 2 ≤ length bytes.old) × (length bytes.old ≤ line_store_bound) × (number < 65536) }
    ensures { ShortPut number at bytes.old bytes.new }
{
    bytes[at] = (number % 256) as u8;
    bytes[at + 1] = (number / 256) as u8;
}

// Where the first stretch begins: behind the table and the bytes that hold how many units are used.
fn table_end(slots: usize) -> usize
    requires { slots ≤ line_store_bound }
    ensures { result ≡ table_end slots }
{
    slots * SLOT_BYTES + TABLE_REST
}

// How many units the stretch of a slot has: 0 where the slot has none.
pub fn units_of(bytes: &[u8], slots: usize, slot: usize) -> usize
    requires { (slot < slots) × (table_end slots ≤ length bytes.now) × (length bytes.now ≤ line_store_bound) }
    ensures { (result ≡ units_of bytes.now slot) × (result < 65536) }
{
    short_at(bytes, slot * SLOT_BYTES + 2)
}

// Where the stretch of a slot begins.
pub fn begin_of(bytes: &[u8], slots: usize, slot: usize) -> usize
    requires { (slot < slots) × (table_end slots ≤ length bytes.now) × (length bytes.now ≤ line_store_bound) }
    ensures { result ≡ begin_of slots bytes.now slot }
{
    table_end(slots) + short_at(bytes, slot * SLOT_BYTES) * UNIT
}

// Gives all stretches up: clears the table and the number of units that are used.
fn give_up(bytes: &mut [u8], slots: usize)
    requires { (table_end slots ≤ length bytes.old) × (length bytes.old ≤ line_store_bound) }
    ensures { GivenUp slots bytes.old bytes.new }
{
    let end = table_end(slots);
    bytes[..end].fill(0);
}

// The place of so many free units: behind all stretches or, where the room does not suffice, the first place, with all stretches given up.
fn free_units(bytes: &mut [u8], slots: usize, units: usize) -> usize
    requires fact_1 { Stretches slots bytes.old }
    requires fact_2 { (table_end slots + units * 8 ≤ length bytes.old) × (length bytes.old ≤ line_store_bound) }
    ensures { Free slots units bytes.old bytes.new result }
{
    let used = short_at(bytes, slots * SLOT_BYTES);
    if table_end(slots) + (used + units) * UNIT <= bytes.len() {
        return used;
    }
    give_up(bytes, slots);
    0
}

// Claims a stretch of at least so many units for a slot: the one that it has, or free ones. Tells where it begins. A shorter stretch that the slot had
// is not used again until all are given up.
pub fn claim(bytes: &mut [u8], slots: usize, slot: usize, units: usize) -> usize
    requires fact_1 { Stretches slots bytes.old }
    requires fact_2 { (slot < slots) × (0 < units) }
    requires fact_3 { (table_end slots + units * 8 ≤ length bytes.old) × (length bytes.old ≤ line_store_bound) }
    ensures { Claimed slots slot units bytes.old bytes.new result }
{
    let own = units_of(bytes, slots, slot);
    let fits = units <= own;
    if fits {
        return begin_of(bytes, slots, slot);
    }
    let place = free_units(bytes, slots, units);
    put_short(bytes, slot * SLOT_BYTES, place);
    put_short(bytes, slot * SLOT_BYTES + 2, units);
    put_short(bytes, slots * SLOT_BYTES, place + units);
    table_end(slots) + place * UNIT
}
