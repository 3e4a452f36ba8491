// Recover: what it turns down, its stages one after the other, and the scratch.
ghost use Rattle.std.specs.Prelude.{◌≡◌, ◌≤◌, length, Ok};
ghost use Rattle.table.specs.View.{view};
ghost use Rattle.entries.specs.code.SurveySound.{Surveyable};
ghost use Rattle.survivors.specs.Survivors.{survivors};
ghost use Rattle.recovery.specs.Sides.{items_fit};
ghost use Rattle.recovery.specs.Recover.{scratch_words, survivors_formed, recover_admission, recover_checked, recover_of, RecoverMeets};
ghost use Rattle.recovery.specs.code.PairsCode.{Pairable, Pairs};
ghost use Rattle.recovery.specs.code.RecoverCode.{Roomy, StoresReady, RestoreReady, StagesStored, Recovers};

use crate::{census, marks, numbering, partners, rolling, scratch};
use survivors::{closing, direction, nodes};
use table::answers::{Answer, Refusal};
use table::geometry::Geometry;
use table::stores::Stores;

// The words of the scratch that a recovery uses.
fn scratch_words(g: Geometry) -> usize
    ensures { result ≡ scratch_words g }
{
    g.items as usize + g.nodes as usize
}

// 4 no such node; 16 scratch too short; 2 a survivor's word forms or frames; 14 too few survivors; 15 no recovery
// copy, or two that differ.
fn admit_recover(
    table: &[u64],
    g: Geometry,
    lost: Option<u64>,
    room: usize,
    formed: bool,
    fit: bool,
) -> Result<(), Refusal>
    requires { (formed ≡ survivors_formed g (survivors lost (view g table.now))) × (fit ≡ items_fit g (survivors lost (view g table.now))) }
    ensures { result ≡ recover_admission g (survivors lost (view g table.now)) lost room }
{
    if nodes::lost_outside(g, lost) {
        return Err(Refusal::NoNode);
    }
    if room < scratch_words(g) {
        return Err(Refusal::ShortScratch);
    }
    if !formed {
        return Err(Refusal::NotSound);
    }
    if nodes::too_few(table, g, lost) {
        return Err(Refusal::TooFewNodes);
    }
    if !fit {
        return Err(Refusal::NoRecoveryCopy);
    }
    Ok(())
}

// Numbering, then partners, by the tallies of the census. Where no item has two recovery copies of one number,
// numbering has nothing to do, and the frames in use are those of the census too.
fn pair(
    stores: &mut Stores,
    lost: Option<u64>,
    scratch: &mut [u64],
    tallies: &[u64],
    used: &[u64; 16],
    plain: bool,
)
    requires { Pairable lost plain stores.old scratch.old tallies.now used.now }
    ensures { Pairs lost stores.old stores.new scratch.old scratch.new }
{
    if plain {
        partners::fill_counted(stores.g.nodes, used, scratch);
    } else {
        numbering::number(stores, lost, tallies);
        let table = &mut *stores.table;
        partners::fill_used(table, stores.g, lost, scratch);
    }
    partners::partner_items(stores, lost, scratch, tallies);
}

// What is stored on the survivors, stage by stage.
fn survivor_stores(
    stores: &mut Stores,
    lost: Option<u64>,
    scratch: &mut [u64],
    forward: bool,
    list: &mut [u16],
    tallies: &[u64],
    used: &[u64; 16],
    plain: bool,
)
    requires { RestoreReady lost forward plain stores.old scratch.old list.old tallies.now used.now }
    ensures { StagesStored lost stores.old stores.new scratch.old scratch.new }
{
    rolling::roll(stores, lost, forward, list);
    pair(stores, lost, scratch, tallies, used, plain);
    closing::close(stores, lost);
}

// All stores of a recovery; the scratch is zero where it was used.
fn recover_stores(
    stores: &mut Stores,
    lost: Option<u64>,
    scratch: &mut [u64],
    forward: bool,
    list: &mut [u16],
    tallies: &[u64],
    used: &[u64; 16],
    plain: bool,
)
    requires { StoresReady lost forward plain stores.old scratch.old list.old tallies.now used.now }
    ensures { Recovers lost stores.old stores.new scratch.old scratch.new }
{
    marks::store_lost(stores, lost);
    survivor_stores(stores, lost, scratch, forward, list, tallies, used, plain);
    scratch::clear(scratch, scratch_words(stores.g));
}

// A recovery with a list, tallies and first values that are long enough, the latter two zero.
fn recover_in(
    table: &mut [u64],
    g: Geometry,
    lost: Option<u64>,
    scratch: &mut [u64],
    limit: u64,
    list: &mut [u16],
    tallies: &mut [u64],
    firsts: &mut [u64],
) -> Answer
    requires { Surveyable g table.old × Roomy g list.old tallies.old firsts.old }
    ensures { RecoverMeets (recover_checked table.old lost (length scratch.old) (Ok g)) limit table.old table.new scratch.old scratch.new result }
{
    let mut used: [u64; 16] = [0; 16];
    let forward = direction::forward_in(table, g, lost);
    let census = census::take(table, g, lost, forward, list, tallies, firsts, &mut used);
    if let Err(refusal) = admit_recover(table, g, lost, scratch.len(), census.formed, census.fit) {
        return Answer::Refused(refusal);
    }
    let mut stores = Stores {
        table,
        g,
        left: limit,
    };
    recover_stores(
        &mut stores,
        lost,
        scratch,
        forward,
        list,
        tallies,
        &used,
        census.plain,
    );
    Answer::Done {
        value: 0,
        stores: limit - stores.left,
    }
}

// A recovery of at most ITEMS items.
fn recover_of<const ITEMS: usize>(
    table: &mut [u64],
    g: Geometry,
    lost: Option<u64>,
    scratch: &mut [u64],
    limit: u64,
) -> Answer
    requires { (g.items ≤ ITEMS) × ((ITEMS ≤ 256) × Surveyable g table.old) }
    ensures { RecoverMeets (recover_checked table.old lost (length scratch.old) (Ok g)) limit table.old table.new scratch.old scratch.new result }
{
    let mut list = [0u16; ITEMS];
    let mut tallies = [0u64; ITEMS];
    let mut firsts = [0u64; ITEMS];
    recover_in(
        table,
        g,
        lost,
        scratch,
        limit,
        &mut list,
        &mut tallies,
        &mut firsts,
    )
}

// The arrays are as long as the items ask for.
fn recover_sized(
    table: &mut [u64],
    g: Geometry,
    lost: Option<u64>,
    scratch: &mut [u64],
    limit: u64,
) -> Answer
    requires { Surveyable g table.old }
    ensures { RecoverMeets (recover_checked table.old lost (length scratch.old) (Ok g)) limit table.old table.new scratch.old scratch.new result }
{
    match g.items {
        0..=16 => recover_of::<16>(table, g, lost, scratch, limit),
        17..=64 => recover_of::<64>(table, g, lost, scratch, limit),
        _ => recover_of::<256>(table, g, lost, scratch, limit),
    }
}

// Brings the survivors back to the last recovery point, or on to the new one, in at most `limit` stores.
pub fn recover(table: &mut [u64], lost: Option<u64>, scratch: &mut [u64], limit: u64) -> Answer
    ensures { RecoverMeets (recover_of table.old lost (length scratch.old)) limit table.old table.new scratch.old scratch.new result }
{
    match entries::check::sizes(table) {
        Err(refusal) => Answer::Refused(refusal),
        Ok(g) => recover_sized(table, g, lost, scratch, limit),
    }
}
