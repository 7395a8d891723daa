//! Rows of views: how they are made, what is made of them, and runs of steps; and of arrays that own their items, 0 and so on.
use crate::calls::hold;

#[test]
fn r1_rows(rt: HostRuntime) {
    let table = "\
new Ix2 8 read 3,2 2,3 => 3,2 2,3 0 0,3,2,5,4,7
new Ix2 8 owned 3,2 2,3 => Unsupported
new Ix2 2 owned 1,2 -9223372036854775808,1 => 1,2 -9223372036854775808,1 0 0,1
run 4 owned 4 1 slice 1..;-2 => 2 -2 3 3,1
run 4 owned 4 1 slice 2..2 => 0 0 0 -
run 6 owned 2,3 3,1 slice 1.. => 0 IncompatibleShape 2,3 3,1 0";
    hold(&rt, rt.alloc(), table);
}

#[test]
fn r3_rows(rt: HostRuntime) {
    let table = "\
new Ix3 8 owned 2,2,2 4,-2,1 => 2,2,2 4,-2,1 2 2,3,0,1,6,7,4,5
new Ix3 8 owned 2,2,2 3,2,1 => Unsupported
new Ix2 6 owned 2,3 -3,-1 => 2,3 -3,-1 5 5,4,3,2,1,0
new Ix0 1 owned - - => - - 0 0
new Ix0 0 owned - - => OutOfBounds
from_shape Ix2 6 2,3 F => 2,3 1,2 0 0,2,4,1,3,5
from_shape Ix2 5 2,3 F => OutOfBounds";
    hold(&rt, rt.alloc(), table);
}

#[test]
fn r4_rows(rt: HostRuntime) {
    let table = "\
run 24 owned 2,3,4 12,4,1 slice ..,1..;-1,0..4;2 => 2,2,2 12,-4,2 8 8,10,4,6,20,22,16,18
run 6 owned 2,3 3,1 slice 1,NewAxis,.. => 1,3 0,1 3 3,4,5
run 1 owned - - slice - => - - 0 0
run 6 owned 2,3 3,1 slice ..;-1,.. slice 0,1.. => 2 1 4 4,5
run 6 owned 2,3 3,1 collapse 0 1 => 1,3 3,1 3 3,4,5
run 6 owned 2,3 3,1 collapse 0 2 => 0 OutOfBounds 2,3 3,1 0";
    hold(&rt, rt.alloc(), table);
}

/// Merged axes, stretched axes, and slices of five rows of five in order.
const JOINED: &str = "\
run 6 owned 2,3 3,1 merge 1 1 => 0 Unsupported 2,3 3,1 0
run 6 owned 2,3 3,1 merge 0 5 => 0 OutOfBounds 2,3 3,1 0
run 6 owned 3,2 2,1 merge 0 1 => 1,6 2,1 0 0,1,2,3,4,5
run 0 owned 1,0 0,0 merge 0 1 => 0,0 0,0 0 -
run 3 owned 3,1 1,7 broadcast 2,3,4 => 2,3,4 0,1,0 0 0,0,0,0,1,1,1,1,2,2,2,2,0,0,0,0,1,1,1,1,2,2,2,2
run 6 owned 2,3 3,1 broadcast 3 => 0 IncompatibleShape 2,3 3,1 0
run 1 owned 1 5 broadcast 4611686018427387904,4 => 0 Overflow 1 5 0
slice_in_order Ix2 25 owned 5,5 5,1 ..,.. => by_rows 5,5 5,1
slice_in_order Ix2 25 owned 5,5 1,5 ..,.. => by_columns 5,5 1,5
slice_in_order Ix2 25 owned 5,5 5,1 ..1,.. => both_ways 1,5 0,1
slice_in_order Ix2 25 owned 5,5 5,1 ..,..1 => neither_way 5,1 5,0
slice_in_order Ix2 25 owned 5,5 5,1 1..,.. => by_rows 4,5 5,1
slice_in_order Ix2 25 owned 5,5 5,1 ..,1.. => neither_way 5,4 5,1
slice_in_order Ix2 25 owned 5,5 1,5 ..,1.. => by_columns 5,4 1,5
slice_in_order Ix2 25 owned 5,5 5,1 ..;2,.. => neither_way 3,5 10,1";

#[test]
fn r5_rows(rt: HostRuntime) {
    hold(&rt, rt.alloc(), JOINED);
}

#[test]
fn r6_rows(rt: HostRuntime) {
    let table = "\
run 6 owned 2,3 3,1 reshape_C 3,2 => 3,2 2,1 0 0,1,2,3,4,5
run 6 owned 2,3 3,1 reshape_F 3,2 => 0 IncompatibleLayout 2,3 3,1 0
run 24 owned 2,3,4 12,4,1 slice ..,1..;-1,0..4;2 reshape_C 4,2 => 1 IncompatibleLayout 2,2,2 12,-4,2 8
run 0 owned 0,2 0,0 reshape_C 5,0 reshape_C 1 => 1 IncompatibleShape 5,0 0,0 0
run 6 owned 2,3 3,1 reshape_C 9223372036854775807,2 => 0 Overflow 2,3 3,1 0
run 6 owned 2,3 3,1 reshape_C 0,6 => 0 IncompatibleShape 2,3 3,1 0
run 6 owned 2,3 3,1 reshape_C 4 => 0 IncompatibleShape 2,3 3,1 0";
    hold(&rt, rt.alloc(), table);
}

#[test]
fn r8_rows(rt: HostRuntime) {
    let table = "\
run 6 owned 2,3 3,1 collapse 0 1 merge 0 1 broadcast 2,2,3 => 2,2,3 0,0,1 3 3,4,5,3,4,5,3,4,5,3,4,5
run 6 owned 2,3 3,1 merge 0 0 => 0 Unsupported 2,3 3,1 0
run 6 owned 2,3 3,1 merge 1 0 => 0 IncompatibleLayout 2,3 3,1 0
run 6 owned 2,3 3,1 collapse 1 3 => 0 OutOfBounds 2,3 3,1 0
run 24 owned 2,3,4 12,4,1 collapse 1 2 merge 0 1 reshape_C 2,2,2 => 2,2,2 12,2,1 8 8,9,10,11,20,21,22,23
run 24 owned 2,3,4 12,4,1 collapse 1 2 merge 0 1 reshape_C 8 => 2 IncompatibleLayout 1,2,4 12,12,1 8";
    hold(&rt, rt.alloc(), table);
}

#[test]
fn r14_rows(rt: HostRuntime) {
    let table = "\
run 4 owned 4 1 clamp -9..9;-2 => 2 -2 3 3,1
run 4 owned 4 1 slice -9..9;-2 => 0 OutOfBounds 4 1 0
run 4 owned 4 1 clamp 5..2 => 0 0 0 -
run 4 owned 4 1 clamp 4 => 0 OutOfBounds 4 1 0
run 4 owned 4 1 clamp 9..;0 => 0 Unsupported 4 1 0";
    hold(&rt, rt.alloc(), table);
}

/// Rows of views by their numbers: of two axes, of none, where a length is 0, and of five axes.
const BY_NUMBER: &str = "\
nth_row Ix2 6 owned 2,3 -3,1 C 1 => 3 1 0 0,1,2
nth_row Ix2 6 owned 2,3 -3,1 F 1 => 2 -3 4 4,1
nth_row Ix2 6 owned 2,3 -3,1 C 2 => None
nth_row Ix2 6 owned 2,3 -3,1 F 3 => None
nth_row Ix0 1 owned - - C 0 / Ix0 1 owned - - F 0 => 1 0 0 0
nth_row Ix0 1 owned - - C 1 / Ix0 1 owned - - F 1 => None
nth_row Ix2 6 owned 2,0 3,1 C 0 / Ix2 6 owned 2,0 3,1 F 0 => None
nth_row IxDyn 12 owned 2,1,3,1,2 -6,9,1,9,3 C 4 => 2 3 1 1,4
nth_row IxDyn 12 owned 2,1,3,1,2 -6,9,1,9,3 F 4 => 2 -6 10 10,4
nth_row IxDyn 12 owned 2,1,3,1,2 -6,9,1,9,3 C 6 => None";

#[test]
fn rows_by_number(rt: HostRuntime) {
    hold(&rt, rt.alloc(), BY_NUMBER);
}

/// Two rows of three items, with a spare one.
const TWO_ROWS: &str = "\
items Ix2 2,3 C 7 ..;-1,1.. => 4,5,1,2
multi_set Ix2 2,3 C 7 0,.. 10,11,12 1,..;2 20,21 => Ok 10,11,12,20,4,21,6
multi_set Ix2 2,3 C 7 0,.. 10,11,12 ..,0 20,21 => Unsupported 0,1,2,3,4,5,6
multi_set Ix2 2,3 C 7 ..,0 10 => IncompatibleShape 0,1,2,3,4,5,6
multi_set Ix2 2,3 C 7 ..,0 10 9,.. 20,21,22 => OutOfBounds 0,1,2,3,4,5,6
multi_set Ix2 2,3 C 7 0..0,.. - => Ok 0,1,2,3,4,5,6
multi_set Ix2 2,3 C 7 ..,2 12,15 ..,1 11,14 ..,0 10,13 => Ok 10,11,12,13,14,15,6
multi_set Ix2 2,3 C 7 ..,2 12,15 ..,1 11,14 ..,0 10,13 0,..1 9 => Unsupported 0,1,2,3,4,5,6
set Ix2 2,3 C 7 1,3 9 => false 0,1,2,3,4,5,6
from_shape_vec Ix2 2,3 C 5 => OutOfBounds 0,1,2,3,4
items Ix2 2,3 -3,1 6 ..,.. => 3,4,5,0,1,2";

/// Parts whose places interleave, of two rows of three items with a spare one, and of rows back to front.
const PARTS: &str = "\
set_parts Ix2 2,3 C 7 ..,..;2 1,1 50 ..,1 0 9 => true 0,9,2,3,4,50,6
set_parts Ix2 2,3 C 7 ..,..;2 1,2 50 ..,1 0 9 => false 0,9,2,3,4,5,6
set_parts Ix2 2,3 C 7 ..,0 0 9 1,.. 0 8 => Unsupported 0,1,2,3,4,5,6
set_parts Ix2 2,3 C 7 ..,0 0 9 2,.. 0 8 => OutOfBounds 0,1,2,3,4,5,6
set_parts Ix2 2,3 -3,1 6 0,..;-1 0 7 1,.. 2 8 => true 0,1,8,3,4,7
set_parts IxDyn 2,1,3,1,2 C 12 ..;-1,..,0,..,.. 0,0,0,1 70 ..,..,1..,..,0 1,0,1,0 80 => true 0,1,2,3,4,5,6,70,8,9,80,11
set_parts Ix2 2,3 C 7 ..,1..1 0,0 9 ..,.. 1,2 8 => false 0,1,2,3,4,8,6
set_halves Ix2 2,3 C 6 1 1 1,0 30 0,1 20 => true 0,1,20,30,4,5
set_halves Ix2 2,3 C 6 1 3 1,2 30 0,0 20 => false 0,1,2,3,4,30
set_halves Ix2 2,3 C 6 1 4 0,0 30 0,0 20 => OutOfBounds 0,1,2,3,4,5";

#[test]
fn parts_rows(rt: HostRuntime) {
    hold(&rt, rt.alloc(), PARTS);
}

#[test]
fn r15_rows(rt: HostRuntime) {
    hold(&rt, rt.alloc(), TWO_ROWS);
}
