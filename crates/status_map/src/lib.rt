//! gRPC statuses as HTTP sees them: the tables between gRPC codes, HTTP statuses and HTTP/2 error
//! codes (google/rpc/code.proto; gRPC over HTTP/2), the JSON body of an error, and the value of the
//! field grpc-message.
//!
//! What holds of each grpc-message and of each body stands in `laws`. Status details (the field
//! grpc-status-details-bin) are neither read nor written.
#![tactic(auto)]

mod codes;
mod error_body;
mod grpc_message;
pub mod laws;

pub use codes::{code_of_http, code_of_reset, http_of};
pub use error_body::put_error;
pub use grpc_message::{put_message, read_message};
