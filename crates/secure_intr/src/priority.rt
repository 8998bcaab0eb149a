// Priority classes of vectors (Intel SDM, Interrupt, Task, and Processor Priority).
ghost use Rattle.std.specs.Prelude.{◌≡◌};
ghost use Rattle.vsm_core.specs.Vectors.{class_of as class_of_lem, class_in_service as class_in_service_lem, if_above as if_above_lem};

// A vector's priority class.
fn class_of(vector: u8) -> u8
    ensures { result ≡ class_of_lem vector }
{
    vector / 16
}

// The class of the highest vector in service, and 0 where there is none.
pub fn class_in_service(served: Option<u8>) -> u8
    ensures { result ≡ class_in_service_lem served }
{
    match served {
        None => 0,
        Some(vector) => class_of(vector),
    }
}

// A vector whose class is above both of these.
pub fn if_above(cr8: u64, served: u8, vector: Option<u8>) -> Option<u8>
    ensures { result ≡ if_above_lem cr8 served vector }
{
    match vector {
        Some(vector) if cr8 < u64::from(class_of(vector)) && served < class_of(vector) => {
            Some(vector)
        }
        _ => None,
    }
}
