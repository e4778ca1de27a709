// Maps, made once and kept: they stand one after the other in one slice of words, behind slots that tell whose map begins where. Where no
// room is left to make one, all maps are forgotten.
#![tactic(auto)]

ghost use Rattle.std.specs.Prelude.{◌≡◌, ℕ, ◌+◌, ◌<◌, ◌≤◌, length};
ghost use Rattle.model.specs.Piece.{Shape, turned};
ghost use Rattle.model.specs.declared.Direction.{Direction};
ghost use Rattle.model.specs.declared.Turn.TheVariants.{Half};
ghost use Rattle.overlap_laws.specs.Grown.{grown};
ghost use Rattle.pair_overlap.specs.Seen.{entries};
ghost use Rattle.bit_laws.specs.Bit.{length_limit};
ghost use Rattle.search_maps.specs.Map.{sides_of, SidesFit, StripsIn, MovedIn, ScratchRoom, MapRoom, MapOf};
ghost use Rattle.search_map_store.specs.Store.{end_of, room_words, all_grown, Copied, Forgotten, RoomFor, StoreFits, Kept};

use model::StripEntry;
use search_maps::{MAP_WORDS, Sides};

// Every begin is below it: a slot holds a key and a begin.
const BEGINS: u64 = 4294967296;

// The words of scratch for maps of small pieces. There are many of these, and clearing what a large one is made in would take longer than
// making a small map.
const SMALL_SCRATCH: usize = 512;

// Forgets all maps.
pub fn forget_maps(words: &mut [u64], slots: usize)
    requires { (slots < length words.old) × (length words.old < length_limit) }
    ensures { Forgotten slots words.old words.new }
{
    words[..slots].fill(0);
    words[slots] = slots as u64 + 1;
}

// Where a map of n words goes: after the others, or first, with the others forgotten.
fn room_for(words: &mut [u64], slots: usize, n: usize) -> usize
    requires { (slots + 1 ≤ end_of slots words.old) × (slots + 1 + n ≤ length words.old) × (length words.old < length_limit) }
    ensures { RoomFor slots n words.old words.new result }
{
    let left = words.len() - n;
    let end = words[slots];
    if end <= left as u64 {
        return end as usize;
    }
    forget_maps(words, slots);
    slots + 1
}

// Makes the map of two small pieces, the moved one grown by `extra`.
fn make_small(
    moved: &[StripEntry],
    standing: &[StripEntry],
    sides: Sides,
    extra: usize,
    words: &mut [u64],
)
    requires { (SidesFit sides) × ((MovedIn sides extra moved.now) × ((StripsIn sides.standing_along sides.standing_across standing.now) × ((ScratchRoom sides 512) × (MapRoom sides (length words.old))))) }
    ensures { (d : Direction) (s t : Shape) → sides ≡ sides_of d (grown extra s) t → moved.now ≡ entries d (turned Half s) → standing.now ≡ entries d t → MapOf d (grown extra s) t words.new }
{
    let mut scratch = [0u64; SMALL_SCRATCH];
    search_maps::make_map(moved, standing, sides, extra, &mut scratch, words);
}

// Copies the first n words.
fn copy_words(from: &[u64], to: &mut [u64], n: usize)
    requires { (n ≤ length from.now) × (n ≤ length to.old) }
    ensures { Copied n from.now to.old to.new }
{
    to[..n].copy_from_slice(&from[..n]);
}

// Makes the map of any two pieces, the moved one grown by `extra`. The words that it goes to are its scratch before: scratch that is enough for
// every map is several times as long as a map, and a local array of that length would be touched page by page by every caller that this is
// compiled into.
fn make_large(
    moved: &[StripEntry],
    standing: &[StripEntry],
    sides: Sides,
    extra: usize,
    words: &mut [u64],
)
    requires fact_1 { SidesFit sides }
    requires fact_2 { MovedIn sides extra moved.now }
    requires fact_3 { StripsIn sides.standing_along sides.standing_across standing.now }
    requires fact_4 { ScratchRoom sides (length words.old) }
    requires fact_5 { MapRoom sides (length words.old) }
    ensures { (d : Direction) (s t : Shape) → sides ≡ sides_of d (grown extra s) t → moved.now ≡ entries d (turned Half s) → standing.now ≡ entries d t → MapOf d (grown extra s) t words.new }
{
    let mut map = [0u64; MAP_WORDS];
    search_maps::make_map(moved, standing, sides, extra, words, &mut map);
    copy_words(&map, words, search_maps::map_words(sides));
}

// Makes the map of two pieces, the moved one grown by `extra`, with scratch by their size.
fn make_sized(
    moved: &[StripEntry],
    standing: &[StripEntry],
    sides: Sides,
    extra: usize,
    words: &mut [u64],
)
    requires fact_1 { SidesFit sides }
    requires fact_2 { MovedIn sides extra moved.now }
    requires fact_3 { StripsIn sides.standing_along sides.standing_across standing.now }
    requires fact_4 { ScratchRoom sides (length words.old) }
    requires fact_5 { MapRoom sides (length words.old) }
    ensures { (d : Direction) (s t : Shape) → sides ≡ sides_of d (grown extra s) t → moved.now ≡ entries d (turned Half s) → standing.now ≡ entries d t → MapOf d (grown extra s) t words.new }
{
    if search_maps::scratch_words(sides) <= SMALL_SCRATCH {
        make_small(moved, standing, sides, extra, words);
        return;
    }
    make_large(moved, standing, sides, extra, words);
}

// The words that a map is made in. Those past the map are free again then.
fn room_words(sides: Sides) -> usize
    requires { SidesFit sides }
    ensures { result ≡ room_words sides }
{
    search_maps::map_words(sides).max(search_maps::scratch_words(sides))
}

// Makes the map of two pieces, the moved one grown by `extra`, and keeps it under a key.
fn add_map(
    moved: &[StripEntry],
    standing: &[StripEntry],
    sides: Sides,
    extra: usize,
    key: usize,
    slot: usize,
    slots: usize,
    words: &mut [u64],
) -> usize
    requires fact_1 { SidesFit sides }
    requires fact_2 { MovedIn sides extra moved.now }
    requires fact_3 { StripsIn sides.standing_along sides.standing_across standing.now }
    requires fact_4 { StoreFits sides key slot slots words.old }
    ensures { (d : ℕ → Direction) (s t : ℕ → Shape) → sides ≡ sides_of (d key) (grown extra (s key)) (t key) → moved.now ≡ entries (d key) (turned Half (s key)) → standing.now ≡ entries (d key) (t key) → Kept slots d (all_grown extra s) t key words.old words.new result }
{
    let room = room_words(sides);
    let at = room_for(words, slots, room);
    let to = at + room;
    make_sized(moved, standing, sides, extra, &mut words[at..to]);
    let end = at + search_maps::map_words(sides);
    words[slot] = (key as u64 + 1) * BEGINS + at as u64;
    words[slots] = end as u64;
    at
}

// Where the map of two pieces, the moved one grown by `extra`, begins that is kept under a key. It is made where the slot has none of that key.
pub fn keep_map(
    moved: &[StripEntry],
    standing: &[StripEntry],
    sides: Sides,
    extra: usize,
    key: usize,
    slot: usize,
    slots: usize,
    words: &mut [u64],
) -> usize
    requires fact_1 { SidesFit sides }
    requires fact_2 { MovedIn sides extra moved.now }
    requires fact_3 { StripsIn sides.standing_along sides.standing_across standing.now }
    requires fact_4 { StoreFits sides key slot slots words.old }
    ensures { (d : ℕ → Direction) (s t : ℕ → Shape) → sides ≡ sides_of (d key) (grown extra (s key)) (t key) → moved.now ≡ entries (d key) (turned Half (s key)) → standing.now ≡ entries (d key) (t key) → Kept slots d (all_grown extra s) t key words.old words.new result }
{
    let held = words[slot];
    if held / BEGINS == key as u64 + 1 {
        return (held % BEGINS) as usize;
    }
    add_map(moved, standing, sides, extra, key, slot, slots, words)
}
