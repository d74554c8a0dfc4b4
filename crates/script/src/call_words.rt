//! Calls, as they stand on a line.
use crate::expected::Expected;
use crate::kind::Kind;
use crate::words::Words;
use calls::Call;

/// The call of this name, from the words behind it.
pub(crate) fn read_call<C: Kind>(name: &str, words: &mut Words<'_>) -> Result<Call<C>, Expected> {
    let call = match name {
        "open" => open(words)?,
        "write" => write(words)?,
        "regroup" => regroup(words)?,
        "work" => work(words)?,
        "give" => give_up(words)?,
        "read" => Call::Read {
            node: words.byte("NODE")?,
        },
        "settle" => Call::Settle {
            node: words.byte("NODE")?,
        },
        "stop" => Call::Stop {
            node: words.byte("NODE")?,
        },
        "propose" => Call::Propose {
            operation: words.two_bytes("OPERATION")?,
        },
        "look" => Call::Look {
            operation: words.two_bytes("OPERATION")?,
        },
        "deliver" => Call::Deliver {
            slot: words.two_bytes("SLOT")?,
        },
        "lose" => Call::Lose {
            slot: words.two_bytes("SLOT")?,
        },
        _ => return Err(Expected::Words("a call, sheet, tables or show")),
    };
    Ok(call)
}

fn open<C: Kind>(words: &mut Words<'_>) -> Result<Call<C>, Expected> {
    let count = words.byte("N")?;
    words.expect("members")?;
    let members = words.members()?;
    words.expect("content")?;
    let content = C::read(words)?;
    Ok(Call::Open {
        count,
        members,
        content,
    })
}

fn write<C: Kind>(words: &mut Words<'_>) -> Result<Call<C>, Expected> {
    let node = words.byte("NODE")?;
    words.expect("content")?;
    let content = C::read(words)?;
    Ok(Call::Write { node, content })
}

fn regroup<C: Kind>(words: &mut Words<'_>) -> Result<Call<C>, Expected> {
    let node = words.byte("NODE")?;
    words.expect("members")?;
    let members = words.members()?;
    Ok(Call::Regroup { node, members })
}

fn work<C: Kind>(words: &mut Words<'_>) -> Result<Call<C>, Expected> {
    Ok(Call::Work {
        number: words.byte("NUMBER")?,
        step: words.byte("STEP")?,
        ballot: words.byte("BALLOT")?,
        set: words.byte("SET")?,
    })
}

fn give_up<C: Kind>(words: &mut Words<'_>) -> Result<Call<C>, Expected> {
    words.expect("up")?;
    let operation = words.two_bytes("OPERATION")?;
    Ok(Call::GiveUp { operation })
}
