// Lines of output, for the cases.
use std::io;

// The line of a case, by A2 and A9: its name, then number 0 with kind, N and P, or a refusal's number alone.
pub fn tell(rt: &impl Print, name: &str, bytes: &[u8]) -> io::Result<()> {
    match sheet::read(bytes) {
        Ok(course) => {
            let (points, ticks) = (course.points, course.ticks);
            println!(rt; "{name}: 0 {} {points} {ticks}", u64::from(course.kind))
        }
        Err(refusal) => println!(rt; "{name}: {}", u64::from(refusal)),
    }
}
