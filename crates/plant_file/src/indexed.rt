// The links of a file checked in turn, each against the index of those before it, and put into the lists.
ghost use Rattle.std.specs.Prelude.{◌≡◌, [], OnOk};
ghost use Rattle.packing.specs.Lists.{written};
ghost use Rattle.refusal.specs.Refusals.{code};
ghost use Rattle.plant_file.specs.PlantFile.{file_n, file_links, file_order, links_refusal};
ghost use Rattle.plant_file.specs.Indexed.{LinksIndexed};
ghost use Rattle.plant_file.specs.Pre.{Taking, Taken, next_refusal, order_refusal, Unindexed, Orderly};

use crate::reader::Reader;
use lists::PLACES;
use refusal::Refusal;

// The links taken so far: count of them, in the first places of a list, with the index of them by its last places. degrees has how many links each gateway has.
#[derive(Drop)]
struct Links<'a> {
    n: u16,
    count: u16,
    links: &'a mut [u16],
    next: &'a mut [u16],
    last: [u16; PLACES],
    degrees: [u16; PLACES],
}

impl Links<'_> {
    // A link after those before it: 3, 4, 20.
    #[tactic(auto, unfolding(crate::specs::PlantFile::ends_refusal))]
    fn check(&self, a: u16, b: u16) -> Result<(), Refusal>
        requires { Taking self.now }
        ensures { code result ≡ next_refusal self.now a b }
    {
        if self.n <= a || self.n <= b {
            return Err(Refusal::EndOutOfRange);
        }
        if a == b {
            return Err(Refusal::EndsEqual);
        }
        let end = 2 * (self.count as usize);
        if chains::follow::is_linked(&self.links[..end], self.next, &self.degrees, a, b) {
            return Err(Refusal::AlreadyLinked);
        }
        Ok(())
    }

    // A link into the lists, where it is not refused.
    fn take(&mut self, a: u16, b: u16) -> Result<(), Refusal>
        requires { Taking self.old }
        ensures answer { code result ≡ next_refusal self.old a b }
        ensures taken { OnOk result (Taken self.old a b self.new) }
        ensures same_lists { (self.new.links.ghost_name ≡ self.old.links.ghost_name) × (self.new.next.ghost_name ≡ self.old.next.ghost_name) }
    {
        self.check(a, b)?;
        chains::build::add_link(self.count, a, b, self.links, self.next, &mut self.last);
        chains::follow::lengthen(&mut self.degrees, a);
        chains::follow::lengthen(&mut self.degrees, b);
        self.count += 1;
        Ok(())
    }
}

// All the file's links: the first refused link's refusal, or the links and their index in the lists.
pub(crate) fn take_links(file: &[u8], links: &mut [u16], next: &mut [u16]) -> Result<(), Refusal>
    requires { Unindexed file.now links.old next.old }
    ensures answer { code result ≡ links_refusal (file_n file.now) [] (file_links file.now) }
    ensures lists { OnOk result (LinksIndexed file.now links.old links.new next.new) }
{
    let mut taken = Links {
        n: crate::gateways(file),
        count: 0,
        links,
        next,
        last: [0u16; lists::PLACES],
        degrees: [0u16; lists::PLACES],
    };
    chains::build::with_roots(taken.next.len(), &mut taken.last);
    for (a, b) in Reader::new(file, 0) {
        taken.take(a, b)?;
    }
    Ok(())
}

// The file's order, or 6 where it doesn't hold 0 to n - 1 once each.
pub(crate) fn take_order(file: &[u8], order: &mut [u16]) -> Result<(), Refusal>
    requires { Orderly file.now order.old }
    ensures answer { code result ≡ order_refusal file.now }
    ensures order { order.new ≡ written (file_n file.now) (file_order file.now) order.old }
{
    crate::fill::with_order(file, order);
    let n = crate::gateways(file);
    let end = n as usize;
    if !sound::is_order(n, &order[..end]) {
        return Err(Refusal::NotAnOrder);
    }
    Ok(())
}
