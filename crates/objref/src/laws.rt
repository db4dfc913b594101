//! Laws of the grammar: functions that do nothing, whose contracts are the laws.
ghost use Rattle.std.specs.Prelude.{◌≡◌, List, ℕ, [], ◌++◌, Ok, length};
ghost use Rattle.com_base.specs.declared.standard.StdFields.{StdFields};
ghost use Rattle.objref.specs.Grammar.{Reference, IsReference, IsStdFields, IsObjRef, HasEnd, spelling};
ghost use Rattle.objref.specs.Grammar.{written_of, said_of};
ghost use Rattle.objref.specs.Reading.{objref_of};

/// What the writer writes is an OBJREF of 72 bytes, and is read again as what was written.
pub fn written_is_read()
    ensures grammar { (fields : StdFields) → IsStdFields fields
        → IsObjRef (written_of fields) (said_of fields) }
    ensures again { (fields : StdFields) → IsStdFields fields
        → objref_of (written_of fields) ≡ Ok (said_of fields) }
    ensures size { (fields : StdFields) → IsStdFields fields → length (written_of fields) ≡ 72 }
{}

/// No OBJREF is the front of another one, so each tells where it ends, except by custom marshalling,
/// whose data goes to the end of the bytes.
pub fn no_front_is_whole()
    ensures { (front whole : Reference) (more : List ℕ) → IsReference front → IsReference whole → HasEnd front
        → spelling front ++ more ≡ spelling whole → (front ≡ whole) × (more ≡ []) }
{}
