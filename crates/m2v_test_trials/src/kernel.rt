use m2v_kernel::{average, sad_at_until, sad16, sad16_until};

/// Each block with the other one, and the sum of their differences worked out by hand.
#[test]
fn sums_differences_of_every_length(rt: HostRuntime) {
    assert_eq!(rt; sad16(&[], &[]), 0);
    assert_eq!(rt; sad16(&[2; 70], &[5; 70]), 210);
    assert_eq!(rt; sad16(&[0; 256], &[255; 256]), 65280);
}

#[test]
fn ends_where_the_sum_reaches_the_limit(rt: HostRuntime) {
    assert_eq!(rt; sad16_until(&[7; 16], &[7; 16], 1), Some(0));
    assert_eq!(rt; sad16_until(&[2; 70], &[5; 70], 210), None);
    assert_eq!(rt; sad16_until(&[2; 70], &[5; 70], 211), Some(210));
    assert_eq!(rt; sad16_until(&[0; 256], &[255; 256], 16320), None);
}

#[test]
fn rounds_means_up(rt: HostRuntime) {
    let mut out = [0; 4];
    average(&[0, 1, 254, 255], &[0, 2, 255, 255], &mut out);
    assert_eq!(rt; out, [0, 2, 255, 255]);
}

/// Lines of 20 samples; what differs lies first and last in the place, and right before and behind its first line.
#[test]
fn sums_differences_at_a_place_of_a_window(rt: HostRuntime) {
    let mut window = [7; 120];
    window[20] = 100;
    window[21] = 9;
    window[37] = 100;
    window[96] = 4;
    assert_eq!(rt; sad_at_until(&[7; 64], 4, &window, 21, 20, 6), Some(5));
    assert_eq!(rt; sad_at_until(&[7; 64], 4, &window, 21, 20, 5), None);
}
