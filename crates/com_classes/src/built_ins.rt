//! The built-in interfaces and the bodies of their classes.

ghost use Rattle.std.specs.Prelude.{◌≡◌, [], ◌∷◌, None, All, IfOk};
ghost use Rattle.com_base.specs.declared.limits.TheConstants.{BODY_LIMIT};
ghost use Rattle.com_body.specs.Bodies.{IsInRange, fault_of};
ghost use Rattle.com_classes.specs.BuiltIns.{iunknown, icounter, irelay, ilatch, built_in_interfaces};
ghost use Rattle.com_classes.specs.BuiltIns.{counter_bodies, relay_bodies, latch_bodies};

use crate::interfaces::{Interface, Method};
use com_base::{BODY_LIMIT, ByteList, Guid, HResult, IID_IUNKNOWN, Kind, Memory, Rows, Value};
use com_body::{Arg, Body, Code, Destination, Given, Op, Place, Stmt};
use std::alloc::Global;

// S_OK as a code.
const WITH_OK: Code = Code::Literal(HResult::S_OK);

/// The IID of ICounter, IRelay or ILatch, by its first field.
pub fn built_in_iid(data1: u32) -> Guid
    ensures { result ≡ record {
      data1 = data1;
      data2 = 0;
      data3 = 0x4000;
      data4 = 0x80 ∷ 0 ∷ 0 ∷ 0 ∷ 0 ∷ 0 ∷
          0 ∷ 1 ∷ [];
    } }
{
    Guid {
        data1,
        data2: 0x0000,
        data3: 0x4000,
        data4: [0x80, 0x00, 0x00, 0x00, 0x00, 0x00, 0x00, 0x01],
    }
}

/// IUnknown, interface 0: no method of its own, since its three are the runtime's. The only error is want of
/// memory. Source: the documentation of IUnknown.
pub fn iunknown(alloc: Global) -> Result<Interface, Memory>
    ensures { IfOk result (λ interface. interface ≡ iunknown) }
{
    Ok(Interface {
        name: ByteList::from_slice(alloc, b"IUnknown")?,
        iid: IID_IUNKNOWN,
        methods: Rows::from_vec(Vec::new(alloc)),
    })
}

/// ICounter, interface 1: `add` takes an Int and gives the sum with the counter, which it keeps, and
/// `get` gives the counter. The only error is want of memory.
pub fn icounter(alloc: Global) -> Result<Interface, Memory>
    ensures { IfOk result (λ interface. interface ≡ icounter) }
{
    let add = Method {
        name: ByteList::from_slice(alloc, b"add")?,
        params: Rows::from_vec(vec![in alloc; Kind::Int]?),
        result: Some(Kind::Int),
    };
    let get = Method {
        name: ByteList::from_slice(alloc, b"get")?,
        params: Rows::from_vec(Vec::new(alloc)),
        result: Some(Kind::Int),
    };
    Ok(Interface {
        name: ByteList::from_slice(alloc, b"ICounter")?,
        iid: built_in_iid(0x5C0B_0001),
        methods: Rows::from_vec(vec![in alloc; add, get]?),
    })
}

/// IRelay, interface 2: `set` takes an ICounter to keep, and `forward` takes an Int for its `add` and
/// gives an Int. The only error is want of memory.
pub fn irelay(alloc: Global) -> Result<Interface, Memory>
    ensures { IfOk result (λ interface. interface ≡ irelay) }
{
    let set = Method {
        name: ByteList::from_slice(alloc, b"set")?,
        params: Rows::from_vec(vec![in alloc; Kind::Ref(1)]?),
        result: None,
    };
    let forward = Method {
        name: ByteList::from_slice(alloc, b"forward")?,
        params: Rows::from_vec(vec![in alloc; Kind::Int]?),
        result: Some(Kind::Int),
    };
    Ok(Interface {
        name: ByteList::from_slice(alloc, b"IRelay")?,
        iid: built_in_iid(0x5C0B_0002),
        methods: Rows::from_vec(vec![in alloc; set, forward]?),
    })
}

/// ILatch, interface 3: `set` sets the latch, and `test` gives whether it is set. The only error is want of
/// memory.
pub fn ilatch(alloc: Global) -> Result<Interface, Memory>
    ensures { IfOk result (λ interface. interface ≡ ilatch) }
{
    let set = Method {
        name: ByteList::from_slice(alloc, b"set")?,
        params: Rows::from_vec(Vec::new(alloc)),
        result: None,
    };
    let test = Method {
        name: ByteList::from_slice(alloc, b"test")?,
        params: Rows::from_vec(Vec::new(alloc)),
        result: Some(Kind::Bool),
    };
    Ok(Interface {
        name: ByteList::from_slice(alloc, b"ILatch")?,
        iid: built_in_iid(0x5C0B_0003),
        methods: Rows::from_vec(vec![in alloc; set, test]?),
    })
}

/// The interfaces that are declared from the start, in the order of their numbers: IUnknown, ICounter, IRelay
/// and ILatch. The only error is want of memory.
pub fn built_in_interfaces(alloc: Global) -> Result<Rows<Interface>, Memory>
    ensures { IfOk result (λ interfaces. interfaces ≡ built_in_interfaces) }
{
    let unknown = iunknown(alloc)?;
    let counter = icounter(alloc)?;
    let relay = irelay(alloc)?;
    let latch = ilatch(alloc)?;
    Ok(Rows::from_vec(vec![in alloc; unknown, counter, relay, latch]?))
}

// The body of statements that are known to be one.
fn body_of(statements: Vec<Stmt>) -> Body
    requires in_range { All IsInRange statements.items }
    requires good { fault_of statements.items BODY_LIMIT ≡ None }
    ensures { result ≡ statements.items }
{
    match Body::check(statements, BODY_LIMIT as u32) {
        Ok(body) => body,
        Err(_) => unreachable!(),
    }
}

/// The bodies of a counter, in the order of ICounter's methods: the counter is the object's number 0. The
/// only error is want of memory.
pub fn counter_bodies(alloc: Global) -> Result<Vec<Body>, Memory>
    ensures { IfOk result (λ bodies. bodies.items ≡ counter_bodies) }
{
    let add = vec![in alloc;
        Stmt::Load { to: 1, cell: 0 },
        Stmt::Add {
            to: 1,
            from: Op::Register(0)
        },
        Stmt::Store {
            cell: 0,
            from: Op::Register(1)
        },
        Stmt::Leave {
            answer: WITH_OK,
            given: Given::Op(Op::Register(1))
        },
    ]?;
    let get = vec![in alloc;
        Stmt::Load { to: 1, cell: 0 },
        Stmt::Leave {
            answer: WITH_OK,
            given: Given::Op(Op::Register(1))
        },
    ]?;
    Ok(vec![in alloc; body_of(add), body_of(get)]?)
}

/// The bodies of a relay, in the order of IRelay's methods: the counter that it forwards to is the object's
/// link 0. The only error is want of memory.
pub fn relay_bodies(alloc: Global) -> Result<Vec<Body>, Memory>
    ensures { IfOk result (λ bodies. bodies.items ≡ relay_bodies) }
{
    let set = vec![in alloc;
        Stmt::Copy {
            to: Place::Link(0),
            from: Place::Slot(0)
        },
        Stmt::Leave {
            answer: WITH_OK,
            given: Given::Nothing
        },
    ]?;
    let args = vec![in alloc; Arg::Op(Op::Register(0))]?;
    let forward = vec![in alloc;
        Stmt::Copy {
            to: Place::Slot(0),
            from: Place::Link(0)
        },
        Stmt::Call {
            slot: 0,
            iface: 1,
            method: 0,
            args: Rows::from_vec(args),
            destination: Destination::Register(1)
        },
        Stmt::Leave {
            answer: Code::Register(15),
            given: Given::Op(Op::Register(1))
        },
    ]?;
    Ok(vec![in alloc; body_of(set), body_of(forward)]?)
}

/// The bodies of a latch, in the order of ILatch's methods: the latch is the object's number 0. The only
/// error is want of memory.
pub fn latch_bodies(alloc: Global) -> Result<Vec<Body>, Memory>
    ensures { IfOk result (λ bodies. bodies.items ≡ latch_bodies) }
{
    let set = vec![in alloc;
        Stmt::Store {
            cell: 0,
            from: Op::Literal(Value::Int(1))
        },
        Stmt::Leave {
            answer: WITH_OK,
            given: Given::Nothing
        },
    ]?;
    let test = vec![in alloc;
        Stmt::Load { to: 1, cell: 0 },
        Stmt::Set {
            to: 2,
            from: Op::Literal(Value::Bool(false))
        },
        Stmt::SkipZero {
            register: 1,
            count: 1
        },
        Stmt::Set {
            to: 2,
            from: Op::Literal(Value::Bool(true))
        },
        Stmt::Leave {
            answer: WITH_OK,
            given: Given::Op(Op::Register(2))
        },
    ]?;
    Ok(vec![in alloc; body_of(set), body_of(test)]?)
}
