//! What is printed for explorations by one worker, the ledger among it.
use crate::answers::Wanted;
use crate::cases::{Case, check, check_all};
use crate::sources::{
    ELLEN_INSERT, FINDS_IN_TURN, NM_INSERT, THREE_INSERTS, TWO_FINDS, TWO_INSERTS,
};
use std::test::Fail;

static PRINTED: [Case<'static>; 11] = [
    Case::Line(
        "treesched explore f --steps 0",
        TWO_INSERTS,
        Wanted::Prints(0, "holds to 0 steps\nstates 1\n"),
    ),
    Case::Line(
        "treesched explore f --steps 2 --ledger",
        TWO_INSERTS,
        Wanted::Prints(
            0,
            "holds to 2 steps\nstates 5\nworker 1 expanded 3 entered 4 met 0\ntotal expanded 3 entered 4 met 0\n",
        ),
    ),
    Case::Line(
        "treesched explore f --steps 2 --states 4 --ledger",
        TWO_INSERTS,
        Wanted::Prints(
            2,
            "stopped at 4 states\nholds to 1 steps\nworker 1 expanded 2 entered 3 met 0\ntotal expanded 2 entered 3 met 0\n",
        ),
    ),
    Case::Line(
        "treesched explore f --steps 3 --ledger",
        THREE_INSERTS,
        Wanted::Prints(
            0,
            "holds to 3 steps\nstates 16\nworker 1 expanded 10 entered 15 met 0\ntotal expanded 10 entered 15 met 0\n",
        ),
    ),
    Case::Line(
        "treesched explore f --steps 2",
        THREE_INSERTS,
        Wanted::Prints(0, "holds to 2 steps\nstates 10\n"),
    ),
    Case::Line(
        "treesched explore f --steps 4 --ledger",
        TWO_FINDS,
        Wanted::Prints(
            0,
            "holds to 4 steps\nstates 13\nworker 1 expanded 10 entered 12 met 2\ntotal expanded 10 entered 12 met 2\n",
        ),
    ),
    Case::Line(
        "treesched explore f --steps 4 --ledger",
        FINDS_IN_TURN,
        Wanted::Prints(
            0,
            "holds to 4 steps\nstates 5\nworker 1 expanded 4 entered 4 met 0\ntotal expanded 4 entered 4 met 0\n",
        ),
    ),
    Case::Line(
        "treesched explore f --steps 4 --merge names --ledger",
        TWO_FINDS,
        Wanted::Prints(
            0,
            "holds to 4 steps\nstates 13\nworker 1 expanded 10 entered 12 met 2\ntotal expanded 10 entered 12 met 2\n",
        ),
    ),
    Case::Line(
        "treesched explore f --steps 5 --merge names --ledger",
        TWO_FINDS,
        Wanted::Prints(
            0,
            "holds for every schedule\nstates 13\nworker 1 expanded 13 entered 12 met 2\ntotal expanded 13 entered 12 met 2\n",
        ),
    ),
    Case::Line(
        "treesched explore f --steps 400 --merge names",
        ELLEN_INSERT,
        Wanted::Prints(0, "holds for every schedule\nstates 276\n"),
    ),
    Case::Line(
        "treesched explore f --steps 400 --merge names",
        NM_INSERT,
        Wanted::Prints(0, "holds for every schedule\nstates 89\n"),
    ),
];

#[test]
fn prints_the_answer_and_the_ledger(rt: HostRuntime) -> Result<(), Fail> {
    check_all(&rt, PRINTED.as_slice())
}

/// A program whose search order breaks.
static BROKEN_ORDER: Case<'static> = Case::Line(
    "treesched explore f --steps 20",
    br#"{"version":1,"tree":"nm-no-tag","initial":[20,10,40,30],"threads":[[{"op":"delete","key":40},{"op":"insert","key":45}],[{"op":"delete","key":10}]]}"#,
    Wanted::Begins(1, "fault order after 20 steps"),
);

#[test]
fn finds_broken_search_order(rt: HostRuntime) -> Result<(), Fail> {
    check(&rt, 0, &BROKEN_ORDER)
}
