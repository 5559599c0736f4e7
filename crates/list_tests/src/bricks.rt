//! Bricks, the atoms of each rank and their ghosts: two atoms in opposite corners, and a fixed set of
//! atoms against the definition, image by image.
ghost use Rattle.std.specs.Prelude.{IsTrue, All};
ghost use Rattle.box_geo.specs.Sides.{IsInside};
ghost use Rattle.ghost_shell.specs.Ghosts.{IsGhostOf};

use box_geo::limits::MAX_ATOMS;
use box_geo::{Atom, Atoms, SimBox};
use fx_num::{NoMemory, Seq, V3};
use ghost_shell::{Ghost, Shell, shell};
use rank_grid::Grid;
use std::alloc::Global;
use std::process::Abort;
use std::test::Fail;

/// How many units are 1.
const ONE: i64 = 1 << 24;
/// The edge of the box, 10, from 0.
const EDGE: i64 = 10 * ONE;
/// The cutoff and the skin, 2.8.
const REACH: i64 = 46_976_205;

/// An atom at a position.
fn atom(id: u32, x: V3) -> Atom {
    Atom {
        id,
        mol: 0,
        kind: 1,
        x,
        v: [0; 3],
        f: [0; 3],
        image: [0; 3],
    }
}

/// Atoms 1 and 2 at these positions.
fn two_atoms(alloc: Global, x: V3, y: V3) -> Result<Atoms, NoMemory> {
    let mut atoms = Seq::new(alloc);
    atoms.push(atom(1, x))?;
    atoms.push(atom(2, y))?;
    Ok(atoms)
}

/// So many atoms at positions from 0 to 10 that look random.
fn many_atoms(alloc: Global, count: u32) -> Result<Atoms, NoMemory> {
    let mut atoms = Seq::new(alloc);
    let mut state = 87_287;
    for id in 0..count {
        let mut x = [0; 3];
        for axis in 0..3 {
            state = next(state);
            x[axis] = (state >> 24) as i64 % EDGE;
        }
        atoms.push(atom(id.wrapping_add(1), x))?;
    }
    Ok(atoms)
}

/// The next state of a linear congruential generator.
fn next(state: u64) -> u64 {
    state
        .wrapping_mul(6_364_136_223_846_793_005)
        .wrapping_add(1_442_695_040_888_963_407)
}

/// Whether all atoms are inside the box.
fn are_inside(cell: &SimBox, atoms: &[Atom]) -> bool
    ensures { IsTrue result → All (λ a. IsInside cell.now.sides a.x) atoms.now }
{
    atoms.iter().all(|atom| cell.holds(atom.x))
}

/// How many atoms a rank owns, and its ghosts.
fn of_rank(
    alloc: Global,
    grid: &Grid,
    atoms: &Atoms,
    rank: u32,
) -> Result<Option<(usize, Shell)>, NoMemory> {
    if atoms.len() > MAX_ATOMS as usize || rank >= grid.ranks() {
        return Ok(None);
    }
    if !are_inside(&grid.cell, atoms.as_slice()) {
        return Ok(None);
    }
    let owned = grid.migrate(alloc, atoms)?;
    let ghosts = shell(alloc, grid, atoms, &owned, rank, REACH)?;
    Ok(Some((owned.row(rank).len(), ghosts)))
}

/// The numbers of own atoms and of ghosts.
fn counts(
    alloc: Global,
    grid: &Grid,
    atoms: &Atoms,
    rank: u32,
) -> Result<Option<(usize, usize)>, NoMemory> {
    match of_rank(alloc, grid, atoms, rank)? {
        Some((own, shell)) => Ok(Some((own, shell.ghosts().len()))),
        None => Ok(None),
    }
}

#[test]
fn opposite_corners(rt: HostRuntime) -> Result<(), Fail> {
    let near = ONE / 4;
    let far = EDGE - ONE / 4;
    let cell = SimBox::new([0; 3], [EDGE; 3], [true; 3], 3)?;
    let atoms = two_atoms(rt.alloc(), [near; 3], [far; 3])?;
    let one = Grid::new([1, 1, 1], cell);
    assert_eq!(rt; counts(rt.alloc(), &one, &atoms, 0)?, Some((2, 14)));
    let two = Grid::new([2, 1, 1], cell);
    assert_eq!(rt; counts(rt.alloc(), &two, &atoms, 0)?, Some((1, 7)));
    assert_eq!(rt; counts(rt.alloc(), &two, &atoms, 1)?, Some((1, 7)));

    // 55,924,053.3 units are a third of the edge
    let three = Grid::new([3, 1, 1], cell);
    assert_eq!(rt; three.brick(1).0, [55_924_054, 0, 0]);
    assert_eq!(rt; three.brick(1).1, [111_848_107, EDGE, EDGE]);

    // the second atom crosses the corner, by a half along each axis, and its images go with it
    has_moved(
        &rt,
        rt.alloc(),
        &one,
        &atoms,
        &two_atoms(rt.alloc(), [near; 3], [near; 3])?,
    )?;
    Ok(())
}

/// Whether each ghost's atom stands at its place.
fn are_ghosts_of(atoms: &[Atom], ghosts: &[Ghost]) -> bool
    ensures { IsTrue result → All (IsGhostOf atoms.now) ghosts.now }
{
    ghosts.iter().all(|image| is_ghost_of(atoms, image))
}

/// Whether a ghost's atom stands at its place.
fn is_ghost_of(atoms: &[Atom], image: &Ghost) -> bool
    ensures { IsTrue result → IsGhostOf atoms.now image.now }
{
    let place = image.site.place as usize;
    if place >= atoms.len() {
        return false;
    }
    atoms[place].id == image.site.id
}

/// Moves the ghosts of the one rank with their atoms: those of atom 2 go up by a half along each axis.
fn has_moved(
    rt: &impl Abort,
    alloc: Global,
    grid: &Grid,
    atoms: &Atoms,
    later: &Atoms,
) -> Result<(), Fail> {
    assert!(rt; atoms.len() <= MAX_ATOMS as usize);
    assert!(rt; are_inside(&grid.cell, atoms.as_slice()));
    assert!(rt; are_inside(&grid.cell, later.as_slice()));
    let owned = grid.migrate(alloc, atoms)?;
    let mut ghosts = shell(alloc, grid, atoms, &owned, 0, REACH)?;
    assert!(rt; are_ghosts_of(later.as_slice(), ghosts.ghosts()));
    ghosts.forward(later);
    for image in ghosts.ghosts() {
        let step = if image.site.id == 2 { ONE / 2 } else { 0 };
        for axis in 0..3 {
            assert_eq!(rt; image.site.x[axis], image.built[axis].wrapping_add(step));
        }
    }
    Ok(())
}

#[test]
fn a_set_of_atoms(rt: HostRuntime) -> Result<(), Fail> {
    let cells = [
        SimBox::new([0; 3], [EDGE; 3], [true; 3], 3)?,
        SimBox::new([0; 3], [EDGE; 3], [true, false, true], 3)?,
        SimBox::new([0; 3], [EDGE; 3], [true; 3], 2)?,
    ];
    let atoms = many_atoms(rt.alloc(), 200)?;
    for cell in cells {
        has_ghosts(&rt, rt.alloc(), &Grid::new([1, 1, 1], cell), &atoms)?;
        has_ghosts(&rt, rt.alloc(), &Grid::new([2, 1, 1], cell), &atoms)?;
        has_ghosts(&rt, rt.alloc(), &Grid::new([2, 2, 2], cell), &atoms)?;
        has_ghosts(&rt, rt.alloc(), &Grid::new([3, 5, 1], cell), &atoms)?;
    }
    Ok(())
}

/// Each rank has just its atoms and the ghosts of the definition.
fn has_ghosts(rt: &impl Abort, alloc: Global, grid: &Grid, atoms: &Atoms) -> Result<(), NoMemory> {
    let mut owned: usize = 0;
    for rank in 0..grid.ranks() {
        let (low, high) = grid.brick(rank);
        match of_rank(alloc, grid, atoms, rank)? {
            Some((own, ghosts)) => {
                let wanted = images(
                    rt,
                    grid,
                    atoms.as_slice(),
                    rank,
                    (low, high),
                    ghosts.ghosts(),
                );
                assert_eq!(rt; ghosts.ghosts().len(), wanted);
                owned = owned.wrapping_add(own);
            }
            None => assert!(rt; false, "rank {rank} is not there"),
        }
    }
    assert_eq!(rt; owned, atoms.len());
    Ok(())
}

/// Counts the images that are ghosts by the definition: each of them is among the ghosts, once.
fn images(
    rt: &impl Abort,
    grid: &Grid,
    atoms: &[Atom],
    rank: u32,
    sides: (V3, V3),
    ghosts: &[Ghost],
) -> usize {
    let mut count: usize = 0;
    for (place, atom) in atoms.iter().enumerate() {
        for n in 0..27 {
            let stays = n == 13 && owner(grid.counts, atom.x) == u64::from(rank);
            if let Some(x) = image(&grid.cell, atom.x, n)
                && !stays
                && is_near(sides, grid.cell.sides.dim == 3, x)
            {
                assert_eq!(rt; times(ghosts, place, atom.id, x), 1);
                count = count.wrapping_add(1);
            }
        }
    }
    count
}

/// How often an image is among the ghosts.
fn times(ghosts: &[Ghost], place: usize, id: u32, x: V3) -> usize {
    let mut count: usize = 0;
    for image in ghosts {
        if image.site.place as usize == place && image.site.id == id && image.site.x == x {
            count = count.wrapping_add(1);
        }
    }
    count
}

/// The image of a position by shift n of 27, of which 13 moves nothing.
fn image(cell: &SimBox, x: V3, n: usize) -> Option<V3> {
    let steps = [n % 3, n / 3 % 3, n / 9 % 3];
    let wraps = [cell.sides.x.periodic, cell.sides.y.periodic, cell.z_wraps()];
    let mut image = x;
    for axis in 0..3 {
        if steps[axis] != 1 && !wraps[axis] {
            return None;
        }
        let shift = match steps[axis] {
            0 => -EDGE,
            1 => 0,
            _ => EDGE,
        };
        image[axis] = image[axis].wrapping_add(shift);
    }
    Some(image)
}

/// Whether a position is strictly within reach of the sides.
fn is_near(sides: (V3, V3), space: bool, p: V3) -> bool {
    for axis in 0..3 {
        let low = sides.0[axis].wrapping_sub(REACH);
        let high = sides.1[axis].wrapping_add(REACH);
        if (axis < 2 || space) && (p[axis] <= low || high <= p[axis]) {
            return false;
        }
    }
    true
}

/// The owner of a position: per axis the floor of x · P / L.
fn owner(counts: [u32; 3], x: V3) -> u64 {
    let mut places = [0; 3];
    for axis in 0..3 {
        let parts = u64::from(counts[axis]);
        places[axis] = x[axis].unsigned_abs().wrapping_mul(parts) / EDGE.unsigned_abs();
    }
    let row = u64::wrapping_mul(places[2], u64::from(counts[1])).wrapping_add(places[1]);
    row.wrapping_mul(u64::from(counts[0]))
        .wrapping_add(places[0])
}
