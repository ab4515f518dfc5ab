// An accepted file, with its lists and the index of its links at hand.
ghost use Rattle.std.specs.Prelude.{◌≡◌, ◌*◌, ◌≤◌, length, take};
ghost use Rattle.plant_file.specs.PlantFile.{file_n, file_m};
ghost use Rattle.plan.specs.Pre.{Loaded};

use search::plant::{Links, Plant};

// Its n gateways, links and limits, and its order, of which the first n entries count.
#[derive(Clone, Copy)]
pub(crate) struct LoadedFile<'a> {
    pub(crate) file: &'a [u8],
    pub(crate) plant: Plant<'a>,
    pub(crate) order: &'a [u16],
    ghost gateways: { plant.links.n ≡ file_n file.now },
    ghost lists: { Loaded file.now plant.links.ends.now plant.links.next.now order.now plant.limits.now },
}

impl<'a> LoadedFile<'a> {
    // With the lists as the file's check leaves them: its links are the first of those lent.
    pub(crate) fn new(
        file: &'a [u8],
        links: &'a [u16],
        next: &'a [u16],
        order: &'a [u16],
        limits: &'a [u8],
    ) -> LoadedFile<'a>
        requires { (2 * file_m file.now ≤ length links.now) × Loaded file.now (take (2 * file_m file.now) links.now) next.now order.now limits.now }
        ensures { result.file.now ≡ file.now }
    {
        let end = 2 * (plant_file::link_count(file) as usize);
        let links = Links {
            n: plant_file::gateways(file),
            ends: &links[..end],
            next,
        };
        let plant = Plant { links, limits };
        LoadedFile { file, plant, order }
    }
}
