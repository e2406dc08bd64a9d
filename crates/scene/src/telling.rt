// The sentences that this program prints.
use frames::{Action, Answer, Call, Grant, Reply};
use std::io;

pub(super) fn tell_bells(rt: &impl Print) -> io::Result<()> {
    println!(rt; "Bell 0 rings twice at once, and then once a minute.")?;
    println!(rt;
        "Bell 1 needs 400 ms from a stroke to the next, and 1000 ms to the one after that."
    )?;
    println!(rt;
        "Bell 3 rings once every 2000 ms. It rang at 500 ms, and was then hung to ring twice at once and once every 3000 ms besides."
    )?;
    println!(rt; "")
}

pub(super) fn tell_call(rt: &impl Print, call: Call) -> io::Result<()> {
    let Call { bell, action } = call;
    match action {
        Action::Request(t) => print!(rt; "At {t} ms, a stroke of bell {bell}? "),
        Action::Take(t) => print!(rt; "At {t} ms, is a stroke of bell {bell} due? "),
        Action::Gap(t) => print!(rt; "At {t} ms, how long since bell {bell} was due? "),
        Action::Waiting => print!(rt; "How many strokes of bell {bell} wait? "),
    }
}

pub(super) fn tell_answer(rt: &impl Print, answer: Answer) -> io::Result<()> {
    match answer {
        Ok(Reply::Due(t)) => println!(rt; "Granted, due at {t} ms."),
        Ok(Reply::Taken(Some(Grant { asked, due }))) => {
            println!(rt; "Yes, asked for at {asked} ms and due at {due} ms.")
        }
        Ok(Reply::Taken(None)) => println!(rt; "No."),
        Ok(Reply::Since(Some(ticks))) => println!(rt; "{ticks} ms."),
        Ok(Reply::Since(None)) => println!(rt; "It was not rung yet."),
        Ok(Reply::Waits(n)) => println!(rt; "{n}."),
        Err(refusal) => println!(rt; "Refused by {}: {refusal}.", refusal.number()),
    }
}
