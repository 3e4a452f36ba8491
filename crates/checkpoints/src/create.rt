// Create: the lowest dirty item gets its two copies of the new point.
ghost use Rattle.std.specs.Prelude.{◌≡◌};
ghost use Rattle.table.specs.Made.{Made, shown};
ghost use Rattle.table.specs.Answers.{Meets};
ghost use Rattle.entries.specs.Dirty.{dirty_item};
ghost use Rattle.checkpoints.specs.Create.{create_plan, create_of};
ghost use Rattle.checkpoints.specs.code.CreateCode.{create_ready, item_plan, sharer_stores, taken_stores};

use entries::check::Surveyed;
use homes::places::Place;
use table::answers::{Answer, Refusal};
use table::stores::Stores;
use table::words;

// The owner turns Precommit1, the sharer Precommit2. Both kept places are read before the first store.
fn turn_sharer(stores: &mut Stores, item: u16, owner: u8, sharer: u8)
    ensures { Made stores.old (sharer_stores (shown stores.old) item owner sharer) stores.new }
{
    let kept = words::kept_of(stores.state(owner, item));
    let beside = words::kept_of(stores.state(sharer, item));
    stores.store_state(owner, item, words::PRECOMMIT1, kept);
    stores.store_state(sharer, item, words::PRECOMMIT2, beside);
}

// The owner turns Precommit1, a home takes the Precommit2. All is chosen before the first store.
fn bring_home(stores: &mut Stores, item: u16, owner: u8, home: u8)
    ensures { Made stores.old (taken_stores stores.old.g (shown stores.old) item owner home) stores.new }
{
    let kept = words::kept_of(stores.state(owner, item));
    let value = stores.value(owner, item);
    let place = Place::Current;
    let table = &mut *stores.table;
    let a = homes::home::arrival_at(table, stores.g, place, home, item);
    stores.store_state(owner, item, words::PRECOMMIT1, kept);
    homes::home::home_stores(stores, place, home, item, words::PRECOMMIT2, value, a);
}

// An item is created: with a sharer, else at a home.
fn create_item(stores: &mut Stores, item: u16) -> Answer
    ensures same_reference { stores.new.table.ghost_name ≡ stores.old.table.ghost_name }
    ensures plan { Meets (item_plan stores.old.g (shown stores.old) item) stores.old.left stores.old.table.now stores.new.table.now result }
{
    let limit = stores.left;
    let table = &mut *stores.table;
    let owner = homes::holders::first_holder(table, stores.g, item, words::OWNER, words::MODIFIED);
    let sharer = homes::holders::first_holder(table, stores.g, item, words::SHARED, words::SHARED);
    if sharer < stores.g.nodes {
        turn_sharer(stores, item, owner, sharer);
        let stores = limit - stores.left;
        return Answer::Done { value: 0, stores };
    }
    let home = homes::home::home_of(table, stores.g, Place::Current, owner, item);
    if home == owner {
        return Answer::Refused(Refusal::NoHome);
    }
    bring_home(stores, item, owner, home);
    let stores = limit - stores.left;
    Answer::Done { value: 0, stores }
}

// The lowest dirty item, which is given, is created; 17 if none is left.
fn create_next(stores: &mut Stores, item: u16) -> Answer
    requires { item ≡ dirty_item stores.old.g (shown stores.old) }
    ensures same_reference { stores.new.table.ghost_name ≡ stores.old.table.ghost_name }
    ensures plan { Meets (create_plan stores.old.g (shown stores.old)) stores.old.left stores.old.table.now stores.new.table.now result }
{
    if item < stores.g.items {
        return create_item(stores, item);
    }
    Answer::NothingLeft
}

// The table checks, then the refusals of Create but that of a home.
#[tactic(auto, unfolding(crate::specs::code::CreateCode::create_ready))]
fn ready(table: &[u64]) -> Result<Surveyed, Refusal>
    ensures { result ≡ create_ready table.now }
{
    let surveyed = entries::check::survey_table(table)?;
    crate::checkpoint::admit_open(table, surveyed.g)?;
    Ok(surveyed)
}

// One dirty item gets its two copies of the new point, in at most `limit` stores.
pub fn create(table: &mut [u64], limit: u64) -> Answer
    ensures { Meets (create_of table.old) limit table.old table.new result }
{
    match ready(table) {
        Err(refusal) => Answer::Refused(refusal),
        Ok(Surveyed { g, item }) => {
            let mut stores = Stores {
                table,
                g,
                left: limit,
            };
            create_next(&mut stores, item)
        }
    }
}
