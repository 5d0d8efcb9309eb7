//! The ranges of the options.
use book::Merge;
use crew::Options;

#[test]
fn options_have_their_ranges(rt: HostRuntime) {
    for (steps, limit, workers, is_in_range) in [
        (0, 1, 1, true),
        (400, 2_000_000, 1, true),
        (401, 1, 1, false),
        (0, 0, 1, false),
        (0, 2_000_001, 1, false),
        (0, 1, 0, false),
        (0, 1, 8, true),
        (0, 1, 9, false),
    ] {
        let options = Options::new(steps, limit, Merge::Exact, workers);
        assert_eq!(rt; options.is_some(), is_in_range);
    }
}

#[test]
fn options_give_their_fields_back(rt: HostRuntime) {
    let options = Options::new(20, 300, Merge::Exact, 7).expect(&rt, "options in range");
    assert_eq!(rt; options.steps(), 20);
    assert_eq!(rt; options.limit(), 300);
    assert_eq!(rt; options.merge(), Merge::Exact);
    assert_eq!(rt; options.workers(), 7);
}
