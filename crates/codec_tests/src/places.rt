//! Resources and scopes whose fields may stand anywhere in them, and several times.

use crate::texts::{bytes_of, ensure, is_found, words};
use otlp_canonical::{resource_copy, scope_copy};
use std::alloc::Global;
use std::process::Abort;

/// A name, a resource's text, and its canonical text: hexadecimal digits, `-` for no bytes, and `none` where there is
/// no resource, or where it is left to the reader.
const RESOURCES: &str = "\
nothing - -\n\
a_count_of_more_bytes 108100 1001\n\
a_count_before_an_attribute 10030a080a016b12030a0176 0a080a016b12030a01761003\n\
a_count_twice 10031004 1004\n\
a_count_and_none 10031000 -\n\
a_count_of_more_bits 108580808010 1005\n\
a_count_of_none_in_its_bits 108080808010 -\n\
not_known_before_and_between 38010a080a016b12030a01764a017810013b3c 0a080a016b12030a0176100138014a01783b3c\n\
a_number_of_another_type 1201780a080a016b12030a0176 0a080a016b12030a0176120178\n\
a_long_length 0a88000a016b12030a0176 0a080a016b12030a0176\n\
a_value_before_its_key 0a0812030a01760a016b 0a080a016b12030a0176\n\
an_attribute_that_is_no_text 0a030a01ff1000 none\n\
an_attribute_with_not_known_in_its_value 0a090a016b1204480118021000 0a090a016b120418024801\n\
an_array_behind_a_long_length 0a0d0a016b1287002a050a030a0176 0a0c0a016b12072a050a030a0176\n\
a_count_before_a_bool_of_two 10020a070a016b12021002 0a070a016b120210011002\n\
an_array_and_a_string 0a0f0a016b120a2a050a030a01760a0177 0a080a016b12030a0177\n\
two_arrays 0a130a016b120e2a050a030a01762a050a030a0176 none\n\
cut 0a080a016b12030a017610 none\n\
of_no_wire_type 17 none\n";

/// The same of scopes.
const SCOPES: &str = "\
nothing_in_a_scope - -\n\
version_before_name 1201310a016e 0a016e120131\n\
name_twice 0a016d1201310a016e 0a016e120131\n\
name_and_an_empty_one 0a016d0a00 -\n\
name_of_no_text_before_one 0a01ff0a016e none\n\
version_of_no_text 0a016e1201ff2000 none\n\
attributes_first 1a080a016b12030a01761a030a016a0a016e 0a016e1a080a016b12030a01761a030a016a\n\
count_before_name 20020a016e 0a016e2002\n\
defaults 0a0012002000 -\n\
not_known_first 40010a016e0d01000000120131 0a016e12013140010d01000000\n\
name_with_a_long_length 0a81006e 0a016e\n\
count_before_two_values_of_which_one_is_a_bool_of_two 20011a090a016b1200120210020a016e 0a016e1a070a016b120210012001\n\
name_cut 0a026e none\n";

/// Whether a resource has this copy in so much room.
fn is_copied(rt: &impl Abort, alloc: Global, text: &[u8], room: u32, wanted: &str) -> bool {
    let found = resource_copy(alloc, text, room).expect(rt, "memory");
    is_found(rt, alloc, found, wanted)
}

/// Whether the line's resource has that copy.
fn is_resource(rt: &impl Abort, alloc: Global, line: &str) -> bool {
    let (_name, text, wanted) = words(rt, line);
    let text = bytes_of(rt, alloc, text);
    is_copied(rt, alloc, text.as_slice(), 99, wanted)
}

/// Whether the line's scope has that copy.
fn is_scope(rt: &impl Abort, alloc: Global, line: &str) -> bool {
    let (_name, text, wanted) = words(rt, line);
    let text = bytes_of(rt, alloc, text);
    let found = scope_copy(alloc, text.as_slice(), 98).expect(rt, "memory");
    is_found(rt, alloc, found, wanted)
}

#[test]
fn resources_by_places(rt: HostRuntime) {
    for line in RESOURCES.lines() {
        ensure(&rt, is_resource(&rt, rt.alloc(), line), line);
    }
}

#[test]
fn scopes_by_places(rt: HostRuntime) {
    for line in SCOPES.lines() {
        ensure(&rt, is_scope(&rt, rt.alloc(), line), line);
    }
}

#[test]
fn a_copy_needs_room(rt: HostRuntime) {
    // An attribute whose value is an array, behind a count: four levels.
    let text = *b"\x10\x01\x0a\x04\x12\x02\x2a\0";
    for (room, wanted) in [(0u32, "none"), (3, "none"), (4, "0a0412022a001001")] {
        ensure(&rt, is_copied(&rt, rt.alloc(), &text, room, wanted), wanted);
    }
}
