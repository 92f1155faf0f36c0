// What is written behind any number of entries, and walks over listings that are not ready.
ghost use Rattle.std.specs.Prelude.{◌+◌, [], ◌∷◌};

use std::test::Fail;
use tables::listing::{
    Listing, fill, write_all, write_all_behind, write_one, write_one_behind, write_plane_behind,
};

// The numbers 10, 11 and 12, a plane each.
struct Three;

impl Listing<u32> for Three {
    ghost part = { λ _ n. (n + 10) ∷ [] };

    ghost parts = { λ _. 3 };

    ghost ready = { λ _. Unit {0} };

    fn planes(&self) -> u16 {
        3
    }

    fn after(&self, plane: u16) -> u16 {
        if plane < 3 { plane + 1 } else { 3 }
    }

    fn write_plane(&self, plane: u16, table: &mut [u32]) -> Option<usize> {
        write_one(u32::from(plane) + 10, table)
    }
}

// A listing that is never ready: it stays at its plane, and says that it wrote more than there is room for.
struct Stuck;

impl Listing<u32> for Stuck {
    ghost part = { λ _ _. [] };

    ghost parts = { λ _. 3 };

    ghost ready = { λ _. ⊥ };

    fn planes(&self) -> u16 {
        3
    }

    fn after(&self, plane: u16) -> u16 {
        plane
    }

    fn write_plane(&self, _plane: u16, _table: &mut [u32]) -> Option<usize> {
        Some(usize::MAX)
    }
}

#[test]
fn one_entry_behind(rt: HostRuntime) -> Result<(), Fail> {
    let mut table = [1u32, 2, 3];
    assert_eq!(rt; write_one_behind(9, &mut table, 0), Some(1));
    assert_eq!(rt; write_one_behind(8, &mut table, 2), Some(3));
    assert_eq!(rt; table, [9, 2, 8]);
    assert_eq!(rt; write_one_behind(7, &mut table, 3), None);
    assert_eq!(rt; write_one_behind(7, &mut table, 4), None);
    assert_eq!(rt; write_one_behind(7, &mut table, usize::MAX), None);
    assert_eq!(rt; table, [9, 2, 8]);
    Ok(())
}

#[test]
fn three_entries_behind(rt: HostRuntime) -> Result<(), Fail> {
    let mut table = [1u32, 2, 3, 4, 5];
    assert_eq!(rt; write_all_behind(&Three, &mut table, 1), Some(4));
    assert_eq!(rt; table, [1, 10, 11, 12, 5]);
    assert_eq!(rt; write_all_behind(&Three, &mut table, 3), None);
    assert_eq!(rt; table, [1, 10, 11, 10, 11]);
    assert_eq!(rt; write_all_behind(&Three, &mut table, 6), None);
    assert_eq!(rt; write_all_behind(&Three, &mut table[..0], usize::MAX), None);
    assert_eq!(rt; write_plane_behind(&Three, 2, &mut table, 6), None);
    assert_eq!(rt; table, [1, 10, 11, 10, 11]);
    assert_eq!(rt; write_plane_behind(&Three, 2, &mut table, 0), Some(1));
    assert_eq!(rt; table, [12, 10, 11, 10, 11]);
    Ok(())
}

#[test]
fn walks_end_where_nothing_is_promised(rt: HostRuntime) -> Result<(), Fail> {
    let mut table = [1u32, 2, 3];
    assert!(rt; write_all(&Stuck, &mut table).is_some());
    assert!(rt; fill(&Stuck, &mut table).is_some());
    assert!(rt; write_all_behind(&Stuck, &mut table, 9).is_some());
    assert_eq!(rt; table, [1, 2, 3]);
    Ok(())
}
