use super::*;

#[test]
fn the_lowest_and_the_highest_vector_can_be_requested(rt: HostRuntime) {
    let mut pending = Pending::new();
    assert_eq!(rt; pending.deliverable(0), None);
    pending.request(0x10);
    assert_eq!(rt; pending.deliverable(0), Some(0x10));
    pending.request(0xFF);
    assert_eq!(rt; pending.deliverable(0), Some(0xFF));
    assert_eq!(rt; pending.deliverable(14), Some(0xFF));
    assert_eq!(rt; pending.deliverable(15), None);
}

#[test]
fn vectors_below_0x10_are_left_out(rt: HostRuntime) {
    let mut pending = Pending::new();
    pending.request_all(&[1 << 0x0F, 0, 0, 0]);
    assert_eq!(rt; pending, Pending::new());
    pending.request_all(&[1 << 0x0F | 1 << 0x10, 0, 0, 1]);
    let mut wanted = Pending::new();
    wanted.request(0xC0);
    wanted.request(0x10);
    assert_eq!(rt; pending, wanted);
    pending.request_all(&[0, 1, 0, 0]);
    wanted.request(0x40);
    assert_eq!(rt; pending, wanted);
}

#[test]
fn cr8_holds_back_its_class_and_those_below(rt: HostRuntime) {
    let mut pending = Pending::new();
    pending.request(0x35);
    assert_eq!(rt; pending.deliverable(2), Some(0x35));
    assert_eq!(rt; pending.deliverable(3), None);
    assert_eq!(rt; pending.deliverable(4), None);
    assert_eq!(rt; pending.deliverable(1 << 32), None);
    assert_eq!(rt; pending.ack(3), None);
    assert_eq!(rt; pending.ack(2), Some(0x35));
}

#[test]
fn a_vector_in_service_holds_back_its_class(rt: HostRuntime) {
    let mut pending = Pending::new();
    pending.request(0x41);
    assert_eq!(rt; pending.ack(0), Some(0x41));
    pending.request(0x3F);
    assert_eq!(rt; pending.deliverable(0), None);
    pending.request(0x4F);
    assert_eq!(rt; pending.deliverable(0), None);
    pending.request(0x50);
    assert_eq!(rt; pending.deliverable(0), Some(0x50));
}

#[test]
fn the_highest_vector_is_taken_first(rt: HostRuntime) {
    let mut pending = Pending::new();
    pending.request(0x7F);
    pending.request(0x80);
    pending.request(0x60);
    pending.request(0x80);
    assert_eq!(rt; pending.ack(0), Some(0x80));
    assert_eq!(rt; pending.ack(0), None);
    pending.eoi();
    assert_eq!(rt; pending.ack(0), Some(0x7F));
    pending.eoi();
    assert_eq!(rt; pending.ack(0), Some(0x60));
}

#[test]
fn an_end_of_interrupt_ends_the_highest_in_service(rt: HostRuntime) {
    let mut pending = Pending::new();
    pending.eoi();
    assert_eq!(rt; pending, Pending::new());
    pending.request(0x30);
    assert_eq!(rt; pending.ack(0), Some(0x30));
    pending.request(0x60);
    assert_eq!(rt; pending.ack(0), Some(0x60));
    pending.request(0x45);
    assert_eq!(rt; pending.deliverable(0), None);
    pending.eoi();
    assert_eq!(rt; pending.deliverable(0), Some(0x45));
    assert_eq!(rt; pending.deliverable(4), None);
    pending.request(0x3E);
    assert_eq!(rt; pending.ack(0), Some(0x45));
    pending.eoi();
    assert_eq!(rt; pending.deliverable(0), None);
    pending.eoi();
    assert_eq!(rt; pending.deliverable(0), Some(0x3E));
}
