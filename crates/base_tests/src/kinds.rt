// Cost kinds: where each starts, what joining gives, and how values rank.
use costs::{Kind, Numbered, Total, Worst, worst_then_total_is_no_kind};

#[test]
fn totals_add_and_stop_at_the_largest_number(rt: HostRuntime) {
    for (total, distortion, joined) in [
        (7, 0, 7),
        (9, 5, 14),
        (4294967290, 4, 4294967294),
        (4294967290, 5, 4294967295),
        (4294967290, 6, 4294967295),
        (4294967295, 4294967295, 4294967295),
    ] {
        assert_eq!(rt; Total(total).join(distortion), Total(joined));
    }
    assert_eq!(rt; <Total as Kind>::start(), Total(0));
}

#[test]
fn worsts_keep_the_greater(rt: HostRuntime) {
    for (worst, distortion, joined) in [
        (0, 9, 9),
        (7, 7, 7),
        (7, 8, 8),
        (7, 6, 7),
        (4294967295, 1, 4294967295),
    ] {
        assert_eq!(rt; Worst(worst).join(distortion), Worst(joined));
    }
    assert_eq!(rt; <Worst as Kind>::start(), Worst(0));
}

#[test]
fn both_kinds_rank_by_size(rt: HostRuntime) {
    for (one, other, ranks) in [
        (3, 3, true),
        (3, 4, true),
        (4, 3, false),
        (0, 4294967295, true),
        (4294967295, 0, false),
    ] {
        assert_eq!(rt; Total(one).no_dearer(Total(other)), ranks);
        assert_eq!(rt; Worst(one).no_dearer(Worst(other)), ranks);
    }
}

#[test]
fn both_kinds_have_a_word_and_a_number_for_each_cost(rt: HostRuntime) {
    assert_eq!(rt; <Total as Numbered>::name(), "total");
    assert_eq!(rt; <Worst as Numbered>::name(), "worst");
    for number in [0, 7, 4294967295] {
        assert_eq!(rt; <Total as Numbered>::of(number), Total(number));
        assert_eq!(rt; <Worst as Numbered>::of(number), Worst(number));
        assert_eq!(rt; Total(number).number(), number);
        assert_eq!(rt; Worst(number).number(), number);
    }
}

// Ranked by worst and then by total, the cheaper of the two becomes the dearer once the distortion joins both.
#[test]
fn worst_first_and_total_second_turns_round(rt: HostRuntime) {
    let example = worst_then_total_is_no_kind();
    assert!(rt; example.cheaper.worst < example.dearer.worst);
    let cheaper = example.cheaper.worst.max(example.distortion);
    let dearer = example.dearer.worst.max(example.distortion);
    assert_eq!(rt; cheaper, dearer);
    let cheaper = example.cheaper.total.saturating_add(example.distortion);
    let dearer = example.dearer.total.saturating_add(example.distortion);
    assert_eq!(rt; (cheaper, dearer), (16, 13));
}
