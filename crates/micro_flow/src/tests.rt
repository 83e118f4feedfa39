//! Costs of rows of the microcode, counted by hand.

use super::*;

const P: CostParams = CostParams {
    r: 63,
    w: 0,
    pairs: 0,
    entries: 0,
};

#[test]
fn a_row_costs_its_words_and_two_more_for_a_branch(rt: HostRuntime) {
    // nop, bipush, dup_x1, iload
    assert_eq!(rt; cost(0, P), 1);
    assert_eq!(rt; cost(16, P), 2);
    assert_eq!(rt; cost(90, P), 5);
    assert_eq!(rt; cost(21, P), 2);
    // goto takes its branch without a stall
    assert_eq!(rt; cost(167, P), 4);
    // fadd, which has no row
    assert_eq!(rt; cost(98, P), 1);
}

#[test]
fn a_read_and_a_write_wait(rt: HostRuntime) {
    // ldc
    assert_eq!(rt; cost(18, P), 72);
    assert_eq!(rt; cost(18, CostParams { r: 0, ..P }), 9);
    // iastore, which reads once and writes, or reads twice and raises
    assert_eq!(rt; cost(79, P), 152);
    assert_eq!(rt; cost(79, CostParams { r: 1, w: 63, ..P }), 87);
    // invokeinterface costs most among the invokes
    assert_eq!(rt; greatest_invoke_cost(P), 500);
}

#[test]
fn a_loop_takes_all_its_turns(rt: HostRuntime) {
    // idiv and irem: 84 and 81, and 31 turns of 36
    assert_eq!(rt; cost(108, P), 1200);
    assert_eq!(rt; cost(112, P), 1197);
    // lookupswitch
    assert_eq!(rt; cost(171, CostParams { pairs: 10, ..P }), 257);
    // a step of the raise routine over two entries
    assert_eq!(rt;
        raise_cost(CostParams {
            r: 1,
            entries: 2,
            ..P
        }),
        225
    );
}
