// The number and the layer of each fault, and the word for each layer.
use faults::{Fault, Layer};
use offers::BlockFault;
use std::process::Abort;
use std::test::Fail;
use terms::TermsFault;

#[test]
fn each_layer_has_its_word(rt: HostRuntime) {
    for (layer, word) in [
        (Layer::Text, "text"),
        (Layer::Terms, "terms"),
        (Layer::Block, "block"),
        (Layer::Planner, "planner"),
        (Layer::Answer, "answer"),
    ] {
        assert_eq!(rt; layer.name(), word);
    }
}

// Each fault has its number, and all have the layer.
fn check_numbers<F: Fault>(rt: &impl Abort, layer: Layer, faults: &[(F, u32)]) {
    for (fault, number) in faults {
        assert_eq!(rt; fault.number(), *number);
        assert_eq!(rt; fault.layer(), layer);
    }
}

#[test]
fn block_faults_have_numbers_20_to_26(rt: HostRuntime) {
    check_numbers(
        &rt,
        Layer::Block,
        &[
            (BlockFault::RateRange, 20),
            (BlockFault::DistortionRange, 21),
            (BlockFault::SamplesRange, 22),
            (BlockFault::GainRange, 23),
            (BlockFault::WeightRange, 24),
            (BlockFault::ExtraRange, 25),
            (BlockFault::GradeRange, 26),
        ],
    );
}

#[test]
fn terms_faults_have_numbers_10_to_13(rt: HostRuntime) {
    check_numbers(
        &rt,
        Layer::Terms,
        &[
            (TermsFault::GradesRange, 10),
            (TermsFault::CeilingRange, 11),
            (TermsFault::ChargeRange, 12),
            (TermsFault::PairRange, 13),
        ],
    );
}

#[test]
fn faults_are_shown_as_layer_and_number(rt: HostRuntime) -> Result<(), Fail> {
    let block = format!(in rt.alloc(); "{}", BlockFault::GradeRange)?;
    assert_eq!(rt; block.as_str(), "block 26");
    let terms = format!(in rt.alloc(); "{}", TermsFault::PairRange)?;
    assert_eq!(rt; terms.as_str(), "terms 13");
    Ok(())
}
