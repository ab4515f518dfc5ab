// 02, change 6: checks a leader list and a choke list by any hand against a plant file.
#![tactic(auto)]

mod difference;
mod groups;
mod plant;

ghost use Rattle.std.specs.Prelude.{◌≡◌};
ghost use Rattle.packing.specs.Plant.{at, linked};
ghost use Rattle.refusal.specs.Refusals.{code};
ghost use Rattle.checker.specs.Check.{lists_refusal, check_refusal};

use plant::Plant;
use refusal::Refusal;

// 31, then 32.
#[tactic(auto, unfolding(crate::specs::Check::lists_refusal, crate::specs::Check::leaders_off, crate::specs::Check::choke_off), using(packing::proofs::Ranges::any_range))]
fn of_lists(plant: &Plant, leaders: &[u16], choke: &[u8]) -> Result<(), Refusal>
    ensures { code result ≡ lists_refusal plant.now.n (at plant.now.limits.now) (linked plant.now.links.now) leaders.now choke.now }
{
    let n = plant.n as usize;
    if leaders.len() < n || !groups::is_grouping(plant, leaders) {
        return Err(Refusal::NotAGrouping);
    }
    if choke.len() < n
        || difference::has_other_byte(plant.n, choke)
        || !difference::is_difference(plant, leaders, choke)
    {
        return Err(Refusal::NotTheDifference);
    }
    Ok(())
}

/// The first refusal of a file and two lists, of any lengths and contents. Apart from the test of the file each list is passed over a few times.
pub fn check_lists(file: &[u8], leaders: &[u16], choke: &[u8]) -> Result<(), Refusal>
    ensures { code result ≡ check_refusal file.now leaders.now choke.now }
{
    let mut links = [0u16; lists::ENDS];
    let mut order = [0u16; lists::PLACES];
    let mut limits = [0u8; lists::PLACES];
    plant_file::load(file, &mut links, &mut order, &mut limits)?;
    let end = 2 * (plant_file::link_count(file) as usize);
    let plant = Plant {
        n: plant_file::gateways(file),
        limits: &limits,
        links: &links[..end],
    };
    of_lists(&plant, leaders, choke)
}
