//! The matrices of a two-input NAND and of a two-input AND.

ghost use Rattle.std.specs.Prelude.{◌≡◌, length};
ghost use Rattle.ca_matrix.specs.Matrix.{shape_of, IsRowOf};

use crate::examples::{AND2, NAND2, cell_of};
use ca_cell::{Row, Rows, defects, parse_defect};
use ca_matrix::{Matrix, exposing};
use ca_net::Trit;
use ca_net::Trit::{One, X, Zero};
use std::alloc::Global;
use std::process::Abort;

// Whether each defect of the NAND is exposable: three opens of each device in turn, the opens of both pins,
// and the shorts VDD=ZN, VDD=N1, VSS=ZN, VSS=N1 and ZN=N1.
static EXPOSABLE: [bool; 19] = [
    true, true, false, true, true, false, true, true, false, true, true, false, false, false, true,
    true, true, false, false,
];

// Defects of the NAND by their places in the list, and the rows that expose each: MP1(D), MN1(D), VDD=ZN and
// VSS=N1.
static EXPOSING: [(usize, &[(u8, u8)]); 4] = [
    (0, &[(3, 1)]),
    (6, &[(0, 3), (1, 3), (2, 3)]),
    (14, &[(0, 3), (1, 3), (2, 3), (3, 3)]),
    (17, &[]),
];

// Asserts the rows.
fn try_rows(rt: &impl Abort, rows: &Rows, expected: &[(u8, u8)]) {
    assert_eq!(rt; rows.len(), expected.len());
    for place in 0..rows.len() {
        assert!(rt; place < expected.len());
        let (first, last) = expected[place];
        assert_eq!(rt; rows.get(place), Row { first, last }, "{place}");
    }
}

// The entries of the NAND for two pairs of vectors: the good cell's, and then one for each defect.
static RECORDS: [(Row, Trit, &[Trit]); 2] = [
    (
        Row { first: 3, last: 1 },
        One,
        &[
            Zero, Zero, X, One, One, One, One, One, X, One, One, One, X, One, One, One, Zero, One,
            X,
        ],
    ),
    (
        Row { first: 3, last: 3 },
        Zero,
        &[
            Zero, Zero, X, Zero, Zero, X, X, X, X, X, X, X, X, X, One, One, Zero, Zero, Zero,
        ],
    ),
];

// Asserts the entries of a record.
fn try_record(rt: &impl Abort, matrix: &Matrix, row: Row, good: Trit, faulty: &[Trit])
    requires row { IsRowOf (shape_of matrix.now) row }
    requires outputs { length matrix.now.outputs ≡ 1 }
{
    assert_eq!(rt; matrix.good(row, 0), good);
    assert_eq!(rt; faulty.len(), matrix.defect_count());
    for defect in 0..matrix.defect_count() {
        assert!(rt; defect < faulty.len());
        assert_eq!(rt; matrix.entry(row, defect, 0), faulty[defect], "{defect}");
    }
}

// The matrix of the NAND, which has 19 defects.
fn matrix_of_nand(rt: &impl Abort, alloc: Global) -> Matrix
    ensures inputs { result.inputs ≡ 2 }
    ensures outputs { length result.outputs ≡ 1 }
    ensures defects { length result.defects ≡ 19 }
{
    let cell = cell_of(rt, alloc, &NAND2);
    let matrix = Matrix::build(alloc, &cell).expect(rt, "memory");
    assert_eq!(rt; matrix.inputs(), 2);
    assert_eq!(rt; matrix.outputs(), 1);
    drop(cell);
    assert_eq!(rt; matrix.defect_count(), 19);
    matrix
}

#[test]
fn exposable_defects_of_a_nand(rt: HostRuntime) {
    let matrix = matrix_of_nand(&rt, rt.alloc());
    assert_eq!(rt; matrix.row_count(), 16);
    assert_eq!(rt; matrix.exposable_count(), 11);
    for place in 0..19 {
        assert_eq!(rt; matrix.exposable(place), EXPOSABLE[place], "{place}");
    }
    drop(matrix);
}

#[test]
fn exposing_rows_of_a_nand(rt: HostRuntime) {
    let matrix = matrix_of_nand(&rt, rt.alloc());
    for (defect, expected) in &EXPOSING {
        assert!(rt; *defect < 19);
        try_rows(
            &rt,
            &matrix.rows(rt.alloc(), *defect).expect(&rt, "memory"),
            expected,
        );
    }
    drop(matrix);
}

#[test]
fn exposing_rows_without_a_matrix(rt: HostRuntime) {
    let alloc = rt.alloc();
    let cell = cell_of(&rt, alloc, &NAND2);
    let count = defects(alloc, &cell).expect(&rt, "memory").len();
    for (defect, expected) in &EXPOSING {
        assert!(rt; *defect < count);
        try_rows(
            &rt,
            &exposing(alloc, &cell, *defect).expect(&rt, "memory"),
            expected,
        );
    }
    drop(cell);
}

#[test]
fn entries_of_a_nand(rt: HostRuntime) {
    let matrix = matrix_of_nand(&rt, rt.alloc());
    for (row, good, faulty) in &RECORDS {
        assert!(rt; row.first < 4 && row.last < 4);
        try_record(&rt, &matrix, *row, *good, faulty);
    }
    drop(matrix);
}

#[test]
fn a_bridge_inside_an_and_is_not_exposable(rt: HostRuntime) {
    let alloc = rt.alloc();
    let cell = cell_of(&rt, alloc, &AND2);
    let bridge = parse_defect(&cell, b"Z=NB").expect(&rt, "a defect");
    let list = defects(alloc, &cell).expect(&rt, "memory");
    assert_eq!(rt; list.len(), 29);
    assert_eq!(rt; list.get(26), bridge);
    let matrix = Matrix::build(alloc, &cell).expect(&rt, "memory");
    assert_eq!(rt; matrix.defect_count(), 29);
    assert_eq!(rt; matrix.exposable_count(), 14);
    assert!(rt; !matrix.exposable(26));
    drop(matrix);
    drop(list);
    drop(cell);
}
