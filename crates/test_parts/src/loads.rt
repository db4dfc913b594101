//! The text of one number, as a program of the generator's reference code draws it.

use com_gen::generate;
use std::test::*;

// The first lines behind those of the classes.
const FRONT: &[u8] = b"thread\n\
      init mta\n\
      create s0 N5 ICounter\n\
      call s0 ICounter.add 417 -> r1\n\
      release s0\n\
      create s0 N5 ICounter\n\
      call s0 ICounter.add 235 -> r1\n\
      release s0\n\
      create s0 N1 ICounter\n";

const BACK: &[u8] = b"create s0 N4 ICounter\n\
      call s0 ICounter.add 739 -> r1\n\
      release s0\n\
      create s0 N3 ICounter\n\
      call s0 ICounter.add 509 -> r1\n\
      release s0\n\
      end\n";

const HEAD: usize = 336;

#[test]
fn the_first_text_is_that_of_the_reference_code(rt: HostRuntime) -> Result<(), Fail> {
    let text = generate(rt.alloc(), 1)?;
    let bytes = text.as_slice();
    assert_eq!(rt; bytes.len(), 204_912);
    assert_eq!(rt; &bytes[HEAD..HEAD + FRONT.len()], FRONT);
    assert_eq!(rt; &bytes[bytes.len() - BACK.len()..], BACK);
    Ok(())
}
