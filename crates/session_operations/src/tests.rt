// What no clause says of operations on records: that they can succeed. The session is that of vectors/s101.steps, whose answers are those of a reading of document 01
// that is written apart from this one.
use crate::{Session, finish_plain, import, rename_type, set_shader_source};
use base_handles::{RecordHandle, TypeHandle};
use base_refusals::Refusal;
use derive_state::{DerivedMut, Sizes, Special};

// vectors/s101.sources: names a, b and c, and four types, of which two are equal but for their spans.
const SOURCE: [u32; 76] = [
    1, 76, 3, 20, 4, 29, 0, 73, 0, 73, 0, 73, 0, 73, 0, 73, 0, 73, 0, 73, 3, 5, 7, 1, 97, 1, 98, 1,
    99, 4, 15, 26, 37, 1, 1, 2, 0, 1, 0, 0, 0, 0, 0, 0, 1, 3, 4, 0, 1, 0, 0, 0, 0, 0, 0, 2, 0, 0,
    0, 1, 0, 0, 0, 0, 0, 0, 3, 0, 0, 1, 1, 0, 0, 0, 0, 0,
];

#[test]
fn records(rt: HostRuntime) {
    let mut special = Special::new();
    let derived = DerivedMut {
        log: &mut [0; 16384],
        logtags: &mut [0; 16384],
        starts: &mut [[0; 512]; 8],
        maps: &mut [[0; 512]; 6],
        buckets: &mut [0; 16384],
    };
    let mut session = Session {
        source: None,
        words: &mut [0; 16384],
        tags: &mut [0; 16384],
        derived,
        special: &mut special,
        stacks: &mut [[0; 16384]; 4],
        sizes: Sizes::empty(),
    };
    let mut image = [0; 304];
    base_words::store(&SOURCE, &mut image);
    let mut output = [0; 392];

    let source = set_shader_source(&mut session, &image, 100);
    assert_eq!(rt; source, Ok(()));
    let type_0 = rename_type(&mut session, TypeHandle(0), 1);
    assert_eq!(rt; type_0, Ok(0));
    let mapped = rename_type(&mut session, TypeHandle(0), 2);
    assert_eq!(rt; mapped, Ok(0));
    let type_2 = import(&mut session, RecordHandle::Type(TypeHandle(2)));
    assert_eq!(rt; type_2, Ok(0));
    let type_1 = rename_type(&mut session, TypeHandle(1), 2);
    assert_eq!(rt; type_1, Ok(1));
    let type_3 = import(&mut session, RecordHandle::Type(TypeHandle(3)));
    assert_eq!(rt; type_3, Ok(2));
    let past_names = rename_type(&mut session, TypeHandle(0), 3);
    assert_eq!(rt; past_names, Err(Refusal::NumberGiven));
    let past_types = rename_type(&mut session, TypeHandle(4), 0);
    assert_eq!(rt; past_types, Err(Refusal::NumberGiven));
    let source = set_shader_source(&mut session, &image, 4294967290);
    assert_eq!(rt; source, Ok(()));
    let type_3 = import(&mut session, RecordHandle::Type(TypeHandle(3)));
    assert_eq!(rt; type_3, Ok(4));
    let type_0 = import(&mut session, RecordHandle::Type(TypeHandle(0)));
    assert_eq!(rt; type_0, Ok(3));
    let type_1 = import(&mut session, RecordHandle::Type(TypeHandle(1)));
    assert_eq!(rt; type_1, Ok(3));
    let bytes = finish_plain(&mut session, &mut output);
    assert_eq!(rt; bytes, Ok(336));
}
