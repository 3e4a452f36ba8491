// The survey of a table by rows, in memory order. Of each row the entries that hold something are gathered, and only
// these are looked at: each adds its weight to its item's tally, and its values are compared with the first that the
// item had.
ghost use Rattle.std.specs.Prelude.{◌≡◌, ◌+◌, ◌*◌, ◌/◌, ◌%◌, ◌^◌, ◌<◌, ◌≤◌, length, get_or};
ghost use Rattle.table.specs.View.{view};
ghost use Rattle.entries.specs.code.Row.{top_of, row_state};
ghost use Rattle.entries.specs.code.Survey.{weight_of, holds, keeps, created_tally, kind_by};
ghost use Rattle.entries.specs.code.SurveyRow.{Gathered, EntryNoted, RowReady, RowNoted};
ghost use Rattle.entries.specs.code.SurveyGather.{Gathering, GatheredMore};
ghost use Rattle.entries.specs.code.SurveySound.{fits_test, RowFrames, Surveyable, Surveying, RowSurveyed, RowsSurveyed};
ghost use Rattle.entries.specs.code.SurveyDirty.{kinds_found, found};

use crate::frames;
use counting::{bits, choice};
use table::geometry::Geometry;
use table::stores;

// What entries tell: the frames that they use, and 1024 for each whose codes are out of form; the other bits of their
// state words and those in which their values differ from the ones before.
#[derive(Clone, Copy)]
struct Turn {
    frames: u64,
    differ: u64,
}

// The weight of an entry, by the six top bits of its state word, the current and the kept code: a row a current code.
const WEIGHTS: [u64; 64] = [
    0,
    0x2000_0000_0020,
    0x2000_0000_0400,
    0x80_0000_0000_0000,
    0x2000_0000_0001,
    0x4000_0000_0021,
    0x4000_0000_0401,
    0x80_0000_0000_0000,
    0x2000_0000_8001,
    0x4000_0000_8021,
    0x4000_0000_8401,
    0x80_0000_0000_0000,
    0x2000_0010_0001,
    0x4000_0010_0021,
    0x4000_0010_0401,
    0x80_0000_0000_0000,
    0x2000_0200_0001,
    0x80_0000_0000_0000,
    0x80_0000_0000_0000,
    0x80_0000_0000_0000,
    0x2000_4000_0001,
    0x80_0000_0000_0000,
    0x80_0000_0000_0000,
    0x80_0000_0000_0000,
    0x2008_0000_0001,
    0x4008_0000_0021,
    0x4008_0000_0401,
    0x80_0000_0000_0000,
    0x2100_0000_0001,
    0x4100_0000_0021,
    0x4100_0000_0401,
    0x80_0000_0000_0000,
    0x80_0000_0000_0000,
    0x80_0000_0000_0000,
    0x80_0000_0000_0000,
    0x80_0000_0000_0000,
    0x80_0000_0000_0000,
    0x80_0000_0000_0000,
    0x80_0000_0000_0000,
    0x80_0000_0000_0000,
    0x80_0000_0000_0000,
    0x80_0000_0000_0000,
    0x80_0000_0000_0000,
    0x80_0000_0000_0000,
    0x80_0000_0000_0000,
    0x80_0000_0000_0000,
    0x80_0000_0000_0000,
    0x80_0000_0000_0000,
    0x80_0000_0000_0000,
    0x80_0000_0000_0000,
    0x80_0000_0000_0000,
    0x80_0000_0000_0000,
    0x80_0000_0000_0000,
    0x80_0000_0000_0000,
    0x80_0000_0000_0000,
    0x80_0000_0000_0000,
    0x80_0000_0000_0000,
    0x80_0000_0000_0000,
    0x80_0000_0000_0000,
    0x80_0000_0000_0000,
    0x80_0000_0000_0000,
    0x80_0000_0000_0000,
    0x80_0000_0000_0000,
    0x80_0000_0000_0000,
];

// The weight of an entry.
fn weight(top: u8) -> u64
    requires { top < 64 }
    ensures { result ≡ weight_of top }
{
    WEIGHTS[top as usize]
}

// Which of the six top bits are of good form with a current copy, and which with a kept one: bit k stands for number k.
const HOLDS: u64 = 0x7711_7770;

const KEEPS: u64 = 0x6600_6666;

// Whether an entry has a current copy, by the six top bits of its state word. What is told by a bit of a constant is
// chosen without a branch; what is told by a number of a table is not.
fn holds(top: u8) -> bool
    requires { top < 64 }
    ensures { result ≡ holds top }
{
    bits::bit_at(HOLDS, top)
}

// Whether it has a kept copy.
fn keeps(top: u8) -> bool
    requires { top < 64 }
    ensures { result ≡ keeps top }
{
    bits::bit_at(KEEPS, top)
}

// Gathers one entry more: its offset stands in the list, and counts if its state word is not 0.
fn gather_one(table: &[u64], start: usize, offset: usize, list: &mut [u16], count: usize) -> usize
    requires { (start + offset < length table.now) × ((count < length list.old) × ((count < 256) × (offset < 768))) }
    ensures { GatheredMore (row_state table.now start) offset 1 list.old list.new count result }
{
    let state = table[start + offset];
    list[count] = offset as u16;
    count + (state != 0) as usize
}

// Gathers four entries more.
fn gather_four(table: &[u64], start: usize, offset: usize, list: &mut [u16], count: usize) -> usize
    requires { (start + offset + 9 < length table.now) × ((count + 3 < length list.old) × ((count + 3 < 256) × (offset + 9 < 768))) }
    ensures { GatheredMore (row_state table.now start) offset 4 list.old list.new count result }
{
    let first = gather_one(table, start, offset, list, count);
    let second = gather_one(table, start, offset + 3, list, first);
    let third = gather_one(table, start, offset + 6, list, second);
    gather_one(table, start, offset + 9, list, third)
}

// Gathers the entries of a row four by four, as far as that goes.
fn gather_fours(table: &[u64], start: usize, items: u16, list: &mut [u16]) -> usize
    requires { (start + 3 * items ≤ length table.now) × ((items ≤ length list.old) × (items ≤ 256)) }
    ensures { Gathering (row_state table.now start) (4 * (items / 4)) list.old list.new result }
{
    let mut count: usize = 0;
    for four in 0..items as usize / 4 {
        count = gather_four(table, start, 12 * four, list, count);
    }
    count
}

// Gathers the offsets of the entries of a row whose state word is not 0: the part of the list that they fill.
fn occupied<'a>(table: &[u64], start: usize, items: u16, list: &'a mut [u16]) -> &'a [u16]
    requires { (start + 3 * items ≤ length table.now) × ((items ≤ length list.old) × (items ≤ 256)) }
    ensures { Gathered (row_state table.now start) items result.now (length result.now) }
{
    let mut count = gather_fours(table, start, items, list);
    for item in items / 4 * 4..items {
        count = gather_one(
            table,
            start,
            Geometry::ENTRY_WORDS * (item as usize),
            list,
            count,
        );
    }
    &list[..count]
}

// Notes one entry.
fn note_entry(table: &[u64], at: usize, j: usize, notes: &mut [u64]) -> Turn
    requires { (at + 2 < length table.now) × ((j + 2 < length notes.old) × (get_or notes.old j 0 + weight_of (top_of (get_or table.now at 0)) < 2 ^ 64)) }
    ensures { EntryNoted (get_or table.now at 0) (get_or table.now (at + 1) 0) (get_or table.now (at + 2) 0) j notes.old notes.new result }
{
    let state = table[at];
    let value = table[at + 1];
    let kept_value = table[at + 2];
    let tally = notes[j];
    let first = notes[j + 1];
    let kept_first = notes[j + 2];
    let top = (state / 0x400_0000_0000_0000) as u8;
    let weight = weight(top);
    let first = choice::either(tally % 32 == 0, value, first);
    let kept_first = choice::either(tally / 32 % 1024 == 0, kept_value, kept_first);
    notes[j] = tally + weight;
    notes[j + 1] = first;
    notes[j + 2] = kept_first;
    let met = choice::either(holds(top), value, first);
    let kept_met = choice::either(keeps(top), kept_value, kept_first);
    Turn {
        frames: weight / 0x2000_0000_0000,
        differ: (first ^ met) | ((kept_first ^ kept_met) | (state % 0x400_0000_0000_0000)),
    }
}

// Notes the row of a live node.
fn note_row(table: &[u64], g: Geometry, node: u8, list: &mut [u16], notes: &mut [u64]) -> Turn
    requires { RowReady g table.now node list.old notes.old }
    ensures { RowNoted g (view g table.now) node notes.new result }
{
    let start = g.entry_at(node, 0);
    let mut frames: u64 = 0;
    let mut differ: u64 = 0;
    for &offset in occupied(table, start, g.items, list) {
        let j = offset as usize;
        let turn = note_entry(table, start + j, j, notes);
        frames += turn.frames;
        differ |= turn.differ;
    }
    Turn { frames, differ }
}

// Whether the codes of a live node's entries are of good form and its frames suffice, by what its row told of frames.
fn node_fits(table: &[u64], g: Geometry, node: u8, frames: u64) -> bool
    requires { RowFrames g (view g table.now) node frames }
    ensures { result ≡ fits_test g (view g table.now) node }
{
    if frames::sets(g) == 1 {
        return frames <= frames::set_frames(g) as u64;
    }
    (frames < 1024) & frames::frames_fit(table, g, node)
}

// Whether a node is dead, or its row is as it should be beside those of the nodes below, which are noted.
fn row_sound(table: &[u64], g: Geometry, node: u8, list: &mut [u16], notes: &mut [u64]) -> bool
    requires { Surveying g table.now node list.old notes.old }
    ensures { RowSurveyed g (view g table.now) node notes.new result }
{
    let mark = stores::mark_at(table, g, node);
    if mark == 0 {
        return true;
    }
    let turn = note_row(table, g, node, list, notes);
    (turn.differ == 0) & node_fits(table, g, node, turn.frames)
}

// Whether each row is as it should be.
fn rows_sound(table: &[u64], g: Geometry, list: &mut [u16], notes: &mut [u64]) -> bool
    requires { Surveying g table.now 0 list.old notes.old }
    ensures { RowsSurveyed g (view g table.now) g.nodes notes.new result }
{
    let mut ok = true;
    for node in 0..g.nodes {
        ok &= row_sound(table, g, node, list, notes);
    }
    ok
}

// The tally of a created item, without its copies, in phase 1; in the others, where no item is created, that of an
// owned one.
fn created_tally(phase: u8) -> u64
    ensures { result ≡ created_tally phase }
{
    if phase == 1 {
        return 0x8_4000_0021;
    }
    0x421
}

// Whether an item is clean, dirty or created, by its tally and that of a created one.
fn kind_sound(tally: u64, created: u64) -> bool
    ensures { result ≡ kind_by created (tally % 2 ^ 45) }
{
    let t = tally % 0x2000_0000_0000;
    let apart = t / 32;
    (apart == 0x210_0000) | (((t == 0x10_0421) | (apart == 0x421)) | (apart == created))
}

// Where each item is clean, dirty, or, in phase 1 only, created, by the tallies, from the last item down: the lowest
// with an Owner or a Modified, or the number of items.
fn kinds_sound(notes: &[u64], items: u16, phase: u8) -> Option<u16>
    requires { 3 * items ≤ length notes.now }
    ensures { result ≡ kinds_found notes.now items phase }
{
    let created = created_tally(phase);
    let mut sound = true;
    let mut dirty = items;
    for item in (0..items).rev() {
        let tally = notes[3 * item as usize];
        sound &= kind_sound(tally, created);
        if tally / 0x8000 % 1024 != 0 {
            dirty = item;
        }
    }
    sound.then_some(dirty)
}

// The survey with a list and notes that are long enough, the notes zero.
fn survey_in(
    table: &[u64],
    g: Geometry,
    phase: u8,
    list: &mut [u16],
    notes: &mut [u64],
) -> Option<u16>
    requires { Surveying g table.now 0 list.old notes.old }
    ensures { result ≡ found g (view g table.now) phase }
{
    if !rows_sound(table, g, list, notes) {
        return None;
    }
    kinds_sound(notes, g.items, phase)
}

// The survey of at most ITEMS items, with three notes an item.
fn survey_of<const ITEMS: usize, const NOTES: usize>(
    table: &[u64],
    g: Geometry,
    phase: u8,
) -> Option<u16>
    requires { ((g.items ≤ ITEMS) × (ITEMS ≤ 256)) × (((3 * g.items ≤ NOTES) × (NOTES ≤ 768)) × Surveyable g table.now) }
    ensures { result ≡ found g (view g table.now) phase }
{
    let mut list = [0u16; ITEMS];
    let mut notes = [0u64; NOTES];
    survey_in(table, g, phase, &mut list, &mut notes)
}

// Where nodes and items are sound, the lowest dirty item that is not created, or the number of items. The list and the
// notes are as long as the items ask for.
pub(crate) fn survey(table: &[u64], g: Geometry, phase: u8) -> Option<u16>
    requires { Surveyable g table.now }
    ensures { result ≡ found g (view g table.now) phase }
{
    match g.items {
        0..=16 => survey_of::<16, 48>(table, g, phase),
        17..=64 => survey_of::<64, 192>(table, g, phase),
        _ => survey_of::<256, 768>(table, g, phase),
    }
}
